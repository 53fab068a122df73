//! Lists of numbers of nodes, from their end.
ghost use Rattle.std.specs.Prelude.{◌≡◌, ◌<◌, ◌≤◌, ◌++◌, ◌∷◌, [], length, take, drop, reverse, OnOk};

use px_base::NoMemory;

/// Takes the last number.
pub(crate) fn take_last(numbers: &mut Vec<usize>) -> usize
    requires { 0 < length numbers.old.items }
    ensures { numbers.old.items ≡ numbers.new.items ++ result ∷ [] }
{
    match numbers.pop() {
        Some(last) => last,
        None => unreachable!(),
    }
}

/// Turns round the order of the numbers from this place on.
pub(crate) fn reverse_from(numbers: &mut Vec<usize>, start: usize)
    requires { start ≤ length numbers.old.items }
    ensures { numbers.new.items ≡ take start numbers.old.items ++ reverse (drop start numbers.old.items) }
{
    numbers[start..].reverse();
}

/// Adds the numbers, the last of them first.
pub(crate) fn push_reversed(stack: &mut Vec<usize>, numbers: &[usize]) -> Result<(), NoMemory>
    ensures { OnOk result (stack.new.items ≡ stack.old.items ++ reverse numbers.now) }
{
    for at in (0..numbers.len()).rev() {
        stack.push(numbers[at])?;
    }
    Ok(())
}
