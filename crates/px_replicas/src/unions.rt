//! Sets of update numbers, as rising lists.
ghost use Rattle.std.specs.Prelude.{◌≡◌, ◌++◌, ◌∷◌, [], IfOk, OnOk};
ghost use Rattle.px_replicas.specs.Held.{IsUnion};
ghost use Rattle.px_replicas.specs.Keeping.{AreInOrder};

use px_base::NoMemory;
use sqlite_items::Items;
use std::alloc::Global;

/// The numbers of either list, rising, where both rise.
pub(crate) fn union(alloc: Global, one: &[u32], other: &[u32]) -> Result<Items<u32>, NoMemory>
    requires one { AreInOrder one.now }
    requires other { AreInOrder other.now }
    ensures { IfOk result (IsUnion one.now other.now) }
{
    let mut both = Items::new(alloc);
    let mut left = one;
    let mut right = other;
    'numbers: while let [first, others @ ..] = left {
        let [next, more @ ..] = right else {
            break;
        };
        if *next < *first {
            both.push(*next)?;
            right = more;
        } else if *first < *next {
            both.push(*first)?;
            left = others;
        } else {
            both.push(*first)?;
            left = others;
            right = more;
        }
    }
    push_all(&mut both, left)?;
    push_all(&mut both, right)?;
    Ok(both)
}

/// Adds the numbers behind those that are there.
fn push_all(numbers: &mut Items<u32>, more: &[u32]) -> Result<(), NoMemory>
    ensures { OnOk result (numbers.new ≡ numbers.old ++ more.now) }
{
    for number in more {
        numbers.push(*number)?;
    }
    Ok(())
}

/// The numbers of the list and one more behind them.
pub(crate) fn with_last(alloc: Global, numbers: &[u32], last: u32) -> Result<Items<u32>, NoMemory>
    ensures { IfOk result (λ more. more ≡ numbers.now ++ last ∷ []) }
{
    let mut more = Items::from_slice(alloc, numbers)?;
    more.push(last)?;
    Ok(more)
}
