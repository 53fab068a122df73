//! The arm of a match with the fields of its constructor put in.

ghost use Rattle.std.specs.Prelude.{◌≡◌, ℕ, IfOk, []};
ghost use Rattle.px_terms.specs.Steps.{with_fields};
ghost use Rattle.px_rewrite.specs.Opening.{AreAround, opened_in, opened_parts_in, opened_arms_in};

use crate::opening::{Opening, field_for, inside_arm};
use px_terms::{NoMemory, Program, Term, copy, copy_fun, copy_funs, copy_tys};
use sqlite_items::{Boxed, Items};
use std::alloc::Global;

/// The arm with these fields put in for the pattern variables of its constructor, the last field for the innermost one. None of
/// the fields has a loose pattern variable. It takes memory, and fails only where there is none; its calls nest as deep as
/// the terms.
pub fn open_arm(
    alloc: Global,
    program: &Program,
    fields: &[Term],
    arm: &Term,
) -> Result<Term, NoMemory>
    ensures { IfOk result (λ t. t ≡ with_fields program.now fields.now arm.now) }
{
    let opening = Opening {
        program,
        fields,
        inner: 0,
    };
    open_part(alloc, arm, &opening)
}

/// A part of an arm with the fields put in.
#[cycle(open)]
fn open_part(alloc: Global, t: &Term, opening: &Opening) -> Result<Term, NoMemory>
    ensures { (n : ℕ) → AreAround opening.now n → IfOk result (λ r. r ≡ opened_in opening.now t.now n) }
{
    match t {
        Term::Free(number) => Ok(Term::Free(*number)),
        Term::Bound(number) => match field_for(opening, *number) {
            Some(field) => copy(alloc, field),
            None => Ok(Term::Bound(*number)),
        },
        Term::Lit(word) => Ok(Term::Lit(*word)),
        Term::Con {
            datatype,
            con,
            types,
            fields,
        } => Ok(Term::Con {
            datatype: *datatype,
            con: *con,
            types: copy_tys(alloc, types.as_slice())?,
            fields: open_parts(alloc, fields.as_slice(), opening)?,
        }),
        Term::Call { fun, funs, args } => Ok(Term::Call {
            fun: copy_fun(alloc, fun)?,
            funs: copy_funs(alloc, funs.as_slice())?,
            args: open_parts(alloc, args.as_slice(), opening)?,
        }),
        Term::Match {
            on,
            datatype,
            types,
            arms,
        } => Ok(Term::Match {
            on: Boxed::new(alloc, open_part(alloc, on.get(), opening)?)?,
            datatype: *datatype,
            types: copy_tys(alloc, types.as_slice())?,
            arms: open_arms(alloc, *datatype, arms.as_slice(), opening)?,
        }),
    }
}

/// Parts of an arm with the fields put in.
#[cycle(open)]
fn open_parts(alloc: Global, parts: &[Term], opening: &Opening) -> Result<Items<Term>, NoMemory>
    ensures { (n : ℕ) → AreAround opening.now n → IfOk result (λ r. r ≡ opened_parts_in opening.now parts.now n) }
{
    let mut done = room_for(alloc, parts.len())?;
    for part in parts {
        done.push(open_part(alloc, part, opening)?)?;
    }
    Ok(done)
}

/// The arms of an inner match with the fields put in: each has the variables of its own constructor around it.
#[cycle(open)]
fn open_arms(
    alloc: Global,
    datatype: u32,
    arms: &[Term],
    opening: &Opening,
) -> Result<Items<Term>, NoMemory>
    ensures { (n : ℕ) → AreAround opening.now n → IfOk result (λ r. r ≡ opened_arms_in opening.now datatype arms.now n) }
{
    let mut done = room_for(alloc, arms.len())?;
    for (con, arm) in arms.iter().enumerate() {
        let inside = inside_arm(opening, datatype, con);
        done.push(open_part(alloc, arm, &inside)?)?;
    }
    Ok(done)
}

/// An empty list that has room for so many terms.
fn room_for(alloc: Global, count: usize) -> Result<Items<Term>, NoMemory>
    ensures { IfOk result (λ items. items ≡ []) }
{
    Ok(Items::from_vec(Vec::with_capacity(alloc, count)?))
}
