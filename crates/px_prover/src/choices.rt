//! Each way to choose so many of some candidates, by their numbers.
ghost use Rattle.std.specs.Prelude.{◌≡◌, ◌<◌, ◌↔◌, ◌∷◌, All, Contains, IfOk, List, Some, ℕ, length, slice_get};
ghost use Rattle.std.specs.List.{AllZip};
ghost use Rattle.px_terms.specs.declared.term.Term.{Term as Tree};
ghost use Rattle.px_terms.specs.declared.types.Ty.{Ty as Kind};
ghost use Rattle.px_terms.specs.declared.types.Fun.{Fun as Function};

use crate::frames::each_behind;
use px_terms::{Fun, NoMemory, Term, Ty, copy, copy_fun, copy_ty};
use sqlite_items::Items;
use std::alloc::Global;

/// The lists of so many numbers below the count. It takes memory.
pub(crate) fn number_lists(
    alloc: Global,
    count: u32,
    places: usize,
) -> Result<Items<Items<u32>>, NoMemory>
    ensures { IfOk result (λ lists. (on : List ℕ) → Contains lists on ↔ ((length on ≡ places) × All (λ (n : ℕ). n < count) on)) }
{
    let mut lists = Items::new(alloc);
    lists.push(Items::new(alloc))?;
    for _place in 0..places {
        lists = longer_lists(alloc, count, lists.as_slice())?;
    }
    Ok(lists)
}

/// Each number below the count, and behind it each of the lists.
fn longer_lists(
    alloc: Global,
    count: u32,
    lists: &[Items<u32>],
) -> Result<Items<Items<u32>>, NoMemory>
    ensures { IfOk result (λ longer. (on : List ℕ) → Contains longer on ↔ ((n : ℕ) × (list : List ℕ) × (n < count) × Contains lists.now list × (on ≡ n ∷ list))) }
{
    let mut longer = Items::new(alloc);
    for number in 0..count {
        let more = each_behind(alloc, number, lists)?;
        longer.append(more)?;
    }
    Ok(longer)
}

/// Copies of the terms that have these numbers. It takes memory.
pub(crate) fn terms_at(
    alloc: Global,
    candidates: &[Term],
    numbers: &[u32],
) -> Result<Items<Term>, NoMemory>
    requires within { All (λ (n : ℕ). n < length candidates.now) numbers.now }
    ensures { IfOk result (λ terms. AllZip (λ (n : ℕ) (t : Tree). slice_get candidates.now n ≡ Some t) numbers.now terms) }
{
    let mut terms = Items::new(alloc);
    for number in numbers {
        terms.push(copy(alloc, &candidates[*number as usize])?)?;
    }
    Ok(terms)
}

/// Copies of the types that have these numbers. It takes memory.
pub(crate) fn types_at(
    alloc: Global,
    candidates: &[Ty],
    numbers: &[u32],
) -> Result<Items<Ty>, NoMemory>
    requires within { All (λ (n : ℕ). n < length candidates.now) numbers.now }
    ensures { IfOk result (λ types. AllZip (λ (n : ℕ) (t : Kind). slice_get candidates.now n ≡ Some t) numbers.now types) }
{
    let mut types = Items::new(alloc);
    for number in numbers {
        types.push(copy_ty(alloc, &candidates[*number as usize])?)?;
    }
    Ok(types)
}

/// Copies of the functions that have these numbers. It takes memory.
pub(crate) fn functions_at(
    alloc: Global,
    candidates: &[Fun],
    numbers: &[u32],
) -> Result<Items<Fun>, NoMemory>
    requires within { All (λ (n : ℕ). n < length candidates.now) numbers.now }
    ensures { IfOk result (λ funs. AllZip (λ (n : ℕ) (f : Function). slice_get candidates.now n ≡ Some f) numbers.now funs) }
{
    let mut funs = Items::new(alloc);
    for number in numbers {
        funs.push(copy_fun(alloc, &candidates[*number as usize])?)?;
    }
    Ok(funs)
}
