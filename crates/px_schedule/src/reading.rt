//! How far the reading of a value has come, and its steps.
ghost use Rattle.std.specs.Prelude.{◌≡◌, ◌≢◌, ◌<◌, ◌≤◌, ◌+◌, ◌∷◌, ◌++◌, [], false, length, reverse, IfOk, IfErr, OnOk};
ghost use Rattle.px_base.specs.Lawful.{IsLawful};
ghost use Rattle.px_base.specs.declared.limits.TheConstants.{VALUE_NODES};
ghost use Rattle.px_terms.specs.Numbered.{HasNumbers};
ghost use Rattle.px_terms.specs.Types.{tys_instance};
ghost use Rattle.px_terms.specs.declared.types.Ty.TheVariants as types;
ghost use Rattle.px_machine.specs.declared.cells.Cell.TheVariants as cells;
ghost use Rattle.px_schedule.specs.declared.wanted.Wanted.TheVariants as wants;
ghost use Rattle.px_schedule.specs.declared.runs.Class.TheVariants as classes;
ghost use Rattle.px_schedule.specs.declared.value_end.ValueEnd.TheVariants.{Fault};
ghost use Rattle.px_schedule.specs.Runs.{left, begins, is_in};
ghost use Rattle.px_schedule.specs.Wanting.{field_wants, AreWants, IsRoom, IsStep, EndsStuck};

use crate::constructors::{Found, find_constructor};
use crate::numbers::value_of;
use crate::rest::Rest;
use crate::runs::Class;
use crate::value_end::ValueEnd;
use crate::wanted::{Wanted, want_fields};
use px_machine::Cell;
use px_terms::{Program, Ty, instance_of_tys};
use sqlite_items::Items;
use std::alloc::Global;

/// What is wanted next, the cells that were read, and how many nodes there may be besides these and the values that are
/// wanted.
#[derive(Drop)]
pub(crate) struct Reading {
    pub(crate) wanted: Items<Wanted>,
    pub(crate) cells: Items<Cell>,
    pub(crate) left: usize,
}

/// Reads the number at the front, where a word is wanted.
fn read_word<'t>(
    program: &Program,
    reading: &mut Reading,
    ty: &Ty,
    text: Rest<'t>,
) -> Result<Rest<'t>, ValueEnd>
    requires word { ty.now ≡ types.Word }
    requires lawful { IsLawful program.now.names }
    requires no_space { begins (is_in classes.Space) (left text) ≡ false }
    requires wants { AreWants (wants.Value ty.now ∷ reverse reading.old.wanted) }
    requires room { IsRoom reading.old.left reading.old.cells (wants.Value ty.now ∷ reverse reading.old.wanted) }
    ensures step { IfOk result (λ rest. IsStep program.now (wants.Value ty.now) reading.old (left text.entry) reading.new (left rest)) }
    ensures stuck { IfErr result (EndsStuck program.now (wants.Value ty.now ∷ reverse reading.old.wanted) (left text.entry) reading.old.cells) }
{
    let (digits, rest) = text.split_run(Class::Digit);
    if digits.is_empty() {
        return Err(ValueEnd::Fault);
    }
    let Some(word) = value_of(digits) else {
        return Err(ValueEnd::Fault);
    };
    reading.cells.push(Cell::Lit(word))?;
    Ok(rest)
}

/// Adds the constructor, and wants its fields; `Fault` where they are more than may be.
fn open_constructor(
    alloc: Global,
    reading: &mut Reading,
    datatype: u32,
    args: &[Ty],
    found: Found,
) -> Result<(), ValueEnd>
    requires { reading.old.left ≤ VALUE_NODES }
    ensures wanted { OnOk result (reverse reading.new.wanted ≡ field_wants (tys_instance args.now found.entry.fields.now) ++ reverse reading.old.wanted) }
    ensures cells { OnOk result (reading.new.cells ≡ reading.old.cells ++ cells.Con datatype found.entry.con (length found.entry.fields.now) ∷ []) }
    ensures left { OnOk result (reading.new.left + length found.entry.fields.now ≡ reading.old.left) }
    ensures full { IfErr result (λ end. end ≡ Fault → reading.old.left < length found.entry.fields.now) }
{
    let count = found.fields.len();
    if count > reading.left {
        return Err(ValueEnd::Fault);
    }
    let types = instance_of_tys(alloc, found.fields, args)?;
    reading.left -= count;
    reading.cells.push(Cell::Con {
        datatype,
        con: found.con,
        fields: count as u32,
    })?;
    want_fields(&mut reading.wanted, types)?;
    Ok(())
}

/// Reads the constructor at the front, where a value of a datatype is wanted; no text is a value of a type variable.
fn read_constructor<'t>(
    alloc: Global,
    program: &Program,
    reading: &mut Reading,
    ty: &Ty,
    text: Rest<'t>,
) -> Result<Rest<'t>, ValueEnd>
    requires lawful { IsLawful program.now.names }
    requires numbered { HasNumbers program.now }
    requires other { ty.now ≢ types.Word }
    requires no_space { begins (is_in classes.Space) (left text) ≡ false }
    requires wants { AreWants (wants.Value ty.now ∷ reverse reading.old.wanted) }
    requires room { IsRoom reading.old.left reading.old.cells (wants.Value ty.now ∷ reverse reading.old.wanted) }
    ensures step { IfOk result (λ rest. IsStep program.now (wants.Value ty.now) reading.old (left text.entry) reading.new (left rest)) }
    ensures stuck { IfErr result (EndsStuck program.now (wants.Value ty.now ∷ reverse reading.old.wanted) (left text.entry) reading.old.cells) }
{
    let Ty::Con { datatype, args } = ty else {
        return Err(ValueEnd::Fault);
    };
    let (word, rest) = text.split_run(Class::NamePart);
    let Some(found) = find_constructor(program, *datatype, word) else {
        return Err(ValueEnd::Fault);
    };
    open_constructor(alloc, reading, *datatype, args.as_slice(), found)?;
    Ok(rest)
}

/// Reads what is wanted off the front, where no space stands.
fn read_wanted<'t>(
    alloc: Global,
    program: &Program,
    reading: &mut Reading,
    wanted: &Wanted,
    text: Rest<'t>,
) -> Result<Rest<'t>, ValueEnd>
    requires lawful { IsLawful program.now.names }
    requires numbered { HasNumbers program.now }
    requires no_space { begins (is_in classes.Space) (left text) ≡ false }
    requires wants { AreWants (wanted.now ∷ reverse reading.old.wanted) }
    requires room { IsRoom reading.old.left reading.old.cells (wanted.now ∷ reverse reading.old.wanted) }
    ensures step { IfOk result (λ rest. IsStep program.now wanted.now reading.old (left text.entry) reading.new (left rest)) }
    ensures stuck { IfErr result (EndsStuck program.now (wanted.now ∷ reverse reading.old.wanted) (left text.entry) reading.old.cells) }
{
    match wanted {
        Wanted::Mark(mark) => match text.past_mark(*mark) {
            Some(rest) => Ok(rest),
            None => Err(ValueEnd::Fault),
        },
        Wanted::Value(ty) => match ty {
            Ty::Word => read_word(program, reading, ty, text),
            _ => read_constructor(alloc, program, reading, ty, text),
        },
    }
}

/// Reads what is wanted off the front.
pub(crate) fn read_next<'t>(
    alloc: Global,
    program: &Program,
    reading: &mut Reading,
    wanted: &Wanted,
    text: Rest<'t>,
) -> Result<Rest<'t>, ValueEnd>
    requires lawful { IsLawful program.now.names }
    requires numbered { HasNumbers program.now }
    requires wants { AreWants (wanted.now ∷ reverse reading.old.wanted) }
    requires room { IsRoom reading.old.left reading.old.cells (wanted.now ∷ reverse reading.old.wanted) }
    ensures step { IfOk result (λ rest. IsStep program.now wanted.now reading.old (left text.entry) reading.new (left rest)) }
    ensures stuck { IfErr result (EndsStuck program.now (wanted.now ∷ reverse reading.old.wanted) (left text.entry) reading.old.cells) }
{
    let (_, rest) = text.split_run(Class::Space);
    read_wanted(alloc, program, reading, wanted, rest)
}
