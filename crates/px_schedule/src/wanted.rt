//! What is to be read next.
ghost use Rattle.std.specs.Prelude.{◌≡◌, ◌++◌, OnOk, reverse};
ghost use Rattle.px_schedule.specs.Wanting.{field_wants, mark_before};

use px_terms::{NoMemory, Ty};
use sqlite_items::Items;

/// What is to be read next: a value of a type, or a mark by its byte. The last item of a stack is read first.
#[derive(Drop)]
pub(crate) enum Wanted {
    Value(Ty),
    Mark(u8),
}

/// What stands in front of a field: `(` where it is the first, else a comma.
fn mark_before(is_first: bool) -> u8
    ensures { result ≡ mark_before is_first }
{
    if is_first { b'(' } else { b',' }
}

/// Wants values of these types, in their order, between `(` and `)` and with commas between, before all else; nothing
/// where there are none.
pub(crate) fn want_fields(wanted: &mut Items<Wanted>, mut types: Items<Ty>) -> Result<(), NoMemory>
    ensures { OnOk result (reverse wanted.new ≡ field_wants types ++ reverse wanted.old) }
{
    if types.is_empty() {
        return Ok(());
    }
    wanted.push(Wanted::Mark(b')'))?;
    'fields: while let Some(ty) = types.pop() {
        wanted.push(Wanted::Value(ty))?;
        wanted.push(Wanted::Mark(mark_before(types.is_empty())))?;
    }
    Ok(())
}
