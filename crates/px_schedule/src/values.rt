//! The value of a text.
ghost use Rattle.std.specs.Prelude.{◌≡◌, ◌<◌, ◌≤◌, length, IfOk, MatchResult};
ghost use Rattle.px_base.specs.Lawful.{IsLawful};
ghost use Rattle.px_terms.specs.Numbered.{HasNumbers};
ghost use Rattle.px_terms.specs.declared.term.Value.{Value as AnyValue};
ghost use Rattle.px_schedule.specs.ValueGrammar.{IsText};
ghost use Rattle.px_schedule.specs.Wanting.{IsStart};
ghost use Rattle.px_schedule.specs.declared.value_end.ValueEnd.TheVariants as ends;

use crate::reading::{Reading, read_next};
use crate::rest::Rest;
use crate::runs::Class;
use crate::value_end::ValueEnd;
use crate::wanted::Wanted;
use px_descent::Checked;
use px_machine::FlatValue;
use px_terms::limits::VALUE_NODES;
use px_terms::{NoMemory, Program, Ty, copy_ty};
use sqlite_items::Items;
use std::alloc::Global;

/// Nothing was read, and a value of the type is wanted.
fn start(alloc: Global, ty: &Ty) -> Result<Reading, NoMemory>
    ensures { IfOk result (λ reading. IsStart ty.now reading) }
{
    let mut wanted = Items::new(alloc);
    wanted.push(Wanted::Value(copy_ty(alloc, ty)?))?;
    Ok(Reading {
        wanted,
        cells: Items::new(alloc),
        left: VALUE_NODES - 1,
    })
}

/// Reads the value of the type that the whole text is: a number, or a constructor's name with its fields in parentheses and
/// commas between; a constructor without fields has no parentheses. A number is decimal digits, zeros may stand in front, and it
/// is at most 2^64 - 1. Spaces, and no other blanks, may stand before, between and behind words and marks. `Fault` exactly where
/// the text is no value of the type, or is one of more than `VALUE_NODES` nodes; no text is a value of a type variable. It takes
/// memory. It is a loop: a value may be as deep as it has nodes.
pub fn read_value(
    alloc: Global,
    checked: &Checked,
    ty: &Ty,
    text: &[u8],
) -> Result<FlatValue, ValueEnd>
    ensures is { IfOk result (λ value. IsText checked.now ty.now text.now value) }
    ensures only { (v : AnyValue) → IsText checked.now ty.now text.now v → MatchResult result (λ value. value ≡ v) (λ end. end ≡ ends.NoMemory) }
{
    value_of_text(alloc, checked.program(), ty, text)
}

/// The value of the type that the whole text is.
pub(crate) fn value_of_text(
    alloc: Global,
    program: &Program,
    ty: &Ty,
    text: &[u8],
) -> Result<FlatValue, ValueEnd>
    requires lawful { IsLawful program.now.names }
    requires numbered { HasNumbers program.now }
    ensures is { IfOk result (λ value. IsText program.now ty.now text.now value) }
    ensures only { (v : AnyValue) → IsText program.now ty.now text.now v → MatchResult result (λ value. value ≡ v) (λ end. end ≡ ends.NoMemory) }
{
    let mut reading = start(alloc, ty)?;
    let mut rest = Rest { bytes: text };
    'wanted: while let Some(wanted) = reading.wanted.pop() {
        rest = read_next(alloc, program, &mut reading, &wanted, rest)?;
    }
    let (_, behind) = rest.split_run(Class::Space);
    if behind.bytes.is_empty() {
        return Ok(FlatValue::from_cells(reading.cells));
    }
    Err(ValueEnd::Fault)
}
