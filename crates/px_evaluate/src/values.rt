//! Values, and how they are found without evaluation.

ghost use Rattle.std.specs.Prelude.{◌≡◌, ◌+◌, ◌++◌, IfOk, reverse, slice_get};
ghost use Rattle.std.specs.Option.{option_copied, option_map};
ghost use Rattle.px_evaluate.specs.Finding.{Adds, Finds, IsAtHand, on_fields};

use px_terms::{NoMemory, Term, Value};
use sqlite_items::{Items, at};
use std::alloc::Global;

/// A value, and the number of calls that it took.
#[derive(Drop)]
pub struct Evaluated {
    pub value: Value,
    pub calls: u64,
}

/// The values of several terms in order, and the number of calls that they took together.
#[derive(Drop)]
pub(crate) struct AllEvaluated {
    pub(crate) values: Items<Value>,
    pub(crate) calls: u64,
}

/// A copy of the value. Its calls nest as deep as the value.
#[cycle(copy_value)]
fn copy_value(alloc: Global, value: &Value) -> Result<Value, NoMemory>
    ensures { IfOk result (λ r. r ≡ value.now) }
{
    match value {
        Value::Lit(word) => Ok(Value::Lit(*word)),
        Value::Con {
            datatype,
            con,
            fields,
        } => Ok(Value::Con {
            datatype: *datatype,
            con: *con,
            fields: copy_values(alloc, fields.as_slice())?,
        }),
    }
}

/// A copy of each value, in order.
#[cycle(copy_value)]
fn copy_values(alloc: Global, values: &[Value]) -> Result<Items<Value>, NoMemory>
    ensures { IfOk result (λ r. r ≡ values.now) }
{
    let mut copies = Items::new(alloc);
    for value in values {
        copies.push(copy_value(alloc, value)?)?;
    }
    Ok(copies)
}

/// The value of the variable of this number; None where there is no such variable.
pub(crate) fn variable(values: &[Value], number: u32) -> Option<&Value>
    ensures { option_copied result ≡ slice_get values.now number }
{
    at(values, number as usize)
}

/// The value of the pattern variable of this number, counted from the inside; None where there is no such variable.
pub(crate) fn nearest(inner: &[Value], number: u32) -> Option<&Value>
    ensures { option_copied result ≡ slice_get (reverse inner.now) number }
{
    let number = number as usize;
    if inner.len() <= number {
        return None;
    }
    at(inner, inner.len() - 1 - number)
}

/// A copy of the value of a variable, where it has one.
pub(crate) fn at_hand(alloc: Global, value: Option<&Value>) -> Result<Option<Evaluated>, NoMemory>
    ensures { IfOk result (λ found. Finds found (IsAtHand (option_copied value.entry))) }
{
    let Some(value) = value else {
        return Ok(None);
    };
    Ok(Some(Evaluated {
        value: copy_value(alloc, value)?,
        calls: 0,
    }))
}

/// The values of the pattern variables inside an arm: those around it, and those of the value's fields.
pub(crate) fn bound_by(
    alloc: Global,
    inner: &[Value],
    fields: &[Value],
) -> Result<Items<Value>, NoMemory>
    ensures { IfOk result (λ r. r ≡ inner.now ++ fields.now) }
{
    let mut values = copy_values(alloc, inner)?;
    let more = copy_values(alloc, fields)?;
    values.append(more)?;
    Ok(values)
}

/// The arm of the constructor of this number; None where it is missing.
pub(crate) fn arm_of(arms: &[Term], con: u32) -> Option<&Term>
    ensures { option_copied result ≡ slice_get arms.now con }
{
    at(arms, con as usize)
}

/// The constructor on the values of its fields, where they have values.
pub(crate) fn constructed(
    datatype: u32,
    con: u32,
    fields: Option<AllEvaluated>,
) -> Option<Evaluated>
    ensures { result ≡ option_map (on_fields datatype con) fields }
{
    let fields = fields?;
    Some(Evaluated {
        value: Value::Con {
            datatype,
            con,
            fields: fields.values,
        },
        calls: fields.calls,
    })
}

/// What was found, with more calls; None where they are more than a u64 counts.
pub(crate) fn with_calls(found: Evaluated, more: u64) -> Option<Evaluated>
    ensures { Finds result (Adds found more) }
{
    let Some(calls) = found.calls.checked_add(more) else {
        return None;
    };
    Some(Evaluated {
        value: found.value,
        calls,
    })
}
