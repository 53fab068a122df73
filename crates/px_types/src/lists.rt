//! The ends of lists.
ghost use Rattle.std.specs.Prelude.{◌≡◌, ◌<◌, ◌++◌, ◌∷◌, [], length, take};

use sqlite_items::Items;

/// Takes the last item off. It takes no memory.
pub(crate) fn take_last<T>(items: &mut Items<T>) -> T
    requires { 0 < length items.old }
    ensures { items.old ≡ items.new ++ result ∷ [] }
{
    match items.pop() {
        Some(last) => last,
        None => unreachable!(),
    }
}

/// Keeps the first items, so many, and drops the others. It takes no memory.
pub(crate) fn keep_first<T: Drop>(items: &mut Items<T>, count: usize)
    ensures { items.new ≡ take count items.old }
{
    'kept: while items.len() > count {
        take_last(items);
    }
}
