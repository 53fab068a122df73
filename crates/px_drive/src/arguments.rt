//! The arguments of `eval`: the definition that is named, and the values that the words are.
ghost use Rattle.std.specs.Prelude.{◌≡◌, ◌<◌, ◌^◌, ◌↔◌, ℕ, IsTrue, IfOk, MatchOption, MatchResult, Some, length, slice_get};
ghost use Rattle.px_terms.specs.declared.term.Value.{Value};
ghost use Rattle.px_drive.specs.Arguments.{IsPlain, IsValueOf, DefinitionsAreNumbered};
ghost use Rattle.px_schedule.specs.declared.value_end.ValueEnd.TheVariants.{NoMemory};
ghost use Rattle.px_drive.specs.Ends.{FindsCall, ReadsValues};

use crate::{ArgumentKind, End};
use px_descent::Checked;
use px_machine::FlatValue;
use px_schedule::{ValueEnd, read_value};
use px_terms::limits::SCHEDULE_BYTES;
use px_terms::{Def, Text, Ty};
use sqlite_items::{Items, at};
use std::alloc::Global;

/// A call of a definition without type parameters and function parameters, on values.
#[derive(Drop)]
pub(crate) struct ClosedCall {
    /// The number of the definition.
    pub(crate) def: u32,
    /// The values of its parameters, in order.
    pub(crate) values: Items<FlatValue>,
}

/// The call of the definition of this name on the values that the words are. `Arguments` where there is no such definition, where it
/// has type parameters or function parameters, where it has another number of data parameters, or by the first word that is no
/// value of its parameter's type.
pub(crate) fn find_call(
    alloc: Global,
    checked: &Checked,
    name: &Text,
    words: &[Text],
) -> Result<ClosedCall, End>
    requires { DefinitionsAreNumbered checked.now }
    ensures { FindsCall checked.now name.now words.now result }
{
    let program = checked.program();
    let Some(number) = number_of(program.names.defs.as_slice(), name.as_str()) else {
        return Err(refused(ArgumentKind::NoSuchName));
    };
    let Some(definition) = at(program.defs.as_slice(), number as usize) else {
        return Err(refused(ArgumentKind::NoSuchName));
    };
    if !is_plain(definition) {
        return Err(refused(ArgumentKind::NotPlain));
    }
    let types = definition.params.as_slice();
    if types.len() != words.len() {
        return Err(refused(ArgumentKind::Count));
    }
    let values = read_values(alloc, checked, types, words)?;
    Ok(ClosedCall {
        def: number,
        values,
    })
}

/// The refusal of arguments for a cause that no value has.
fn refused(kind: ArgumentKind) -> End
    ensures { result ≡ End.Arguments kind 0 }
{
    End::Arguments { kind, word: 0 }
}

/// The number of the first of the names that is this one.
fn number_of(names: &[Text], name: &str) -> Option<u32>
    requires { length names.now < 2 ^ 32 }
    ensures { MatchOption result ((n : ℕ) → ¬ (slice_get names.now n ≡ Some name.now)) (λ n. slice_get names.now n ≡ Some name.now) }
{
    for number in 0..names.len() {
        let own = &names[number];
        if own.as_str() == name {
            return Some(number as u32);
        }
    }
    None
}

/// Whether a definition has neither type parameters nor function parameters.
fn is_plain(definition: &Def) -> bool
    ensures { IsTrue result ↔ IsPlain definition.now }
{
    definition.tparams == 0 && definition.funs.is_empty()
}

/// The values of these types that the words are. `BadValue` by the first word that is none of its type.
fn read_values(
    alloc: Global,
    checked: &Checked,
    types: &[Ty],
    words: &[Text],
) -> Result<Items<FlatValue>, End>
    requires as_many { length types.now ≡ length words.now }
    requires few { length types.now < 2 ^ 32 }
    ensures { ReadsValues checked.now types.now words.now result }
{
    let mut values = Items::new(alloc);
    for number in 0..words.len() {
        let ty = &types[number];
        let word = &words[number];
        match read_word(alloc, checked, ty, word.as_str()) {
            Ok(value) => values.push(value)?,
            Err(ValueEnd::Fault) => {
                return Err(End::Arguments {
                    kind: ArgumentKind::BadValue,
                    word: number as u32,
                });
            }
            Err(ValueEnd::NoMemory) => return Err(End::NoMemory),
        }
    }
    Ok(values)
}

/// The value of the type that the word is, where the word is not too long for a value. `Fault` where it is none.
fn read_word(alloc: Global, checked: &Checked, ty: &Ty, word: &str) -> Result<FlatValue, ValueEnd>
    ensures is { IfOk result (IsValueOf checked.now ty.now word.now) }
    ensures only { (v : Value) → IsValueOf checked.now ty.now word.now v → MatchResult result (λ value. value ≡ v) (λ end. end ≡ NoMemory) }
{
    if word.len() > SCHEDULE_BYTES {
        return Err(ValueEnd::Fault);
    }
    read_value(alloc, checked, ty, word.as_bytes())
}
