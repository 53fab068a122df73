//! The pattern variables around a part of a term.
ghost use Rattle.std.specs.Prelude.{◌≡◌, ◌++◌, reverse, slice_get};
ghost use Rattle.px_terms.specs.Types.{tys_instance};
ghost use Rattle.px_types.specs.Bounds.{bound_of};
ghost use Rattle.px_types.specs.TypeOf.{Finds};

use crate::typings::NotTyped;
use px_terms::{Ty, instance_of_ty};
use sqlite_items::{Items, at};
use std::alloc::Global;

/// The pattern variables around a part of a term: outside of all arms there are none; in an arm those of its pattern, which
/// have the types of a constructor's fields with these put in, and then those around the match. They stand on the stack.
#[derive(Clone, Copy)]
pub(crate) enum Around<'a> {
    Outside,
    Arm {
        fields: &'a Items<Ty>,
        types: &'a Items<Ty>,
        outer: &'a Around<'a>,
    },
}

/// The pattern variables around what stands in an arm of a constructor with these fields, at these types. It takes no memory.
pub(crate) fn inside_arm<'a>(
    fields: &'a Items<Ty>,
    types: &'a Items<Ty>,
    outer: &'a Around<'a>,
) -> Around<'a>
    ensures { bound_of result ≡ reverse (tys_instance types.now fields.now) ++ bound_of outer.now }
{
    Around::Arm {
        fields,
        types,
        outer,
    }
}

/// The type of the pattern variable of this number, counted from the inside. It takes memory.
pub(crate) fn pattern_variable(
    alloc: Global,
    around: &Around,
    number: usize,
) -> Result<Ty, NotTyped>
    ensures { Finds (slice_get (bound_of around.now) number) result }
{
    match around {
        Around::Outside => Err(NotTyped::IllTyped),
        Around::Arm {
            fields,
            types,
            outer,
        } => {
            let count = fields.len();
            if number >= count {
                return pattern_variable(alloc, outer, number - count);
            }
            match at(fields.as_slice(), count - 1 - number) {
                Some(ty) => Ok(instance_of_ty(alloc, ty, types.as_slice())?),
                None => Err(NotTyped::IllTyped),
            }
        }
    }
}
