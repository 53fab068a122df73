//! The second walk of a body: the first self-call that lowers no kept position.

ghost use Rattle.std.specs.Prelude.{◌≡◌, ◌↔◌, IsTrue, List, map, All};
ghost use Rattle.px_terms.specs.Descent.{Standing as AnyStanding, below, calls_in, Keeps};
ghost use Rattle.px_descent.specs.Around.{bound_of};
ghost use Rattle.px_descent.specs.Kept.{stands_in, own_call, arm_calls};
ghost use Rattle.px_descent.specs.Searches.{IsRight, IsKeptIn, Lowered, searched, own_calls, Searches};

use crate::around::{Around, Matched, arm_of, standing};
use crate::calls::own_arguments;
use crate::end::NoDescent;
use crate::kept::{Positions, clear_raised};
use crate::standing::Standing;
use px_terms::{Def, Program, Term};
use sqlite_items::at;

/// A definition whose self-calls are searched. `kept` says of its first positions whether each self-call keeps them.
#[derive(Clone, Copy)]
pub(crate) struct Search<'a> {
    pub(crate) program: &'a Program,
    pub(crate) def: usize,
    pub(crate) definition: &'a Def,
    pub(crate) kept: &'a [bool],
}

/// Whether each self-call keeps the position, by a walk of the whole body.
fn is_kept_by_all(search: &Search, position: u32) -> bool
    ensures { IsTrue result ↔ All (λ (args : List AnyStanding). Keeps args position) (own_calls search.now) }
{
    let positions = Positions {
        program: search.program,
        def: search.def,
        first: position,
    };
    let mut kept = [true];
    clear_raised(
        &positions,
        &search.definition.body,
        &Around::Body,
        &mut kept,
    );
    kept[0]
}

/// Whether the position is one of the definition's that each self-call keeps. Past those of which `kept` tells it takes
/// a walk of the body.
fn is_kept(search: &Search, position: u32) -> bool
    requires { IsRight search.now }
    ensures { IsTrue result ↔ IsKeptIn search.now position }
{
    if position as usize >= search.definition.params.len() {
        return false;
    }
    match at(search.kept, position as usize) {
        Some(kept) => *kept,
        None => is_kept_by_all(search, position),
    }
}

/// Whether the position is kept, and this argument for it is below its parameter.
fn lowers_at(search: &Search, arg: &Term, around: &Around, position: usize) -> bool
    requires { IsRight search.now }
    ensures { IsTrue result ↔ (IsKeptIn search.now position × ((searched search.now arg.now (bound_of around.now)).stands ≡ below position)) }
{
    match standing(arg, around) {
        Standing::Below(own) => own as usize == position && is_kept(search, own),
        _ => false,
    }
}

/// Whether a call with these arguments lowers a kept position.
fn lowers_kept(search: &Search, args: &[Term], around: &Around) -> bool
    requires { IsRight search.now }
    ensures { IsTrue result ↔ Lowered search.now (stands_in search.now.program.now search.now.def args.now (bound_of around.now)) }
{
    for (index, arg) in args.iter().enumerate() {
        if lowers_at(search, arg, around, index) {
            return true;
        }
    }
    false
}

/// Passes the term itself, where it is a self-call.
fn pass_own(search: &Search, t: &Term, around: &Around, before: u32) -> Result<u32, NoDescent>
    requires { IsRight search.now }
    ensures { Searches search.now (own_call search.now.program.now search.now.def t.now (bound_of around.now)) before result }
{
    let Some(args) = own_arguments(t, search.def) else {
        return Ok(before);
    };
    if !lowers_kept(search, args, around) {
        return Err(NoDescent {
            def: search.def as u32,
            call: before,
        });
    }
    Ok(before.saturating_add(1))
}

/// Passes the self-calls in the term, where `before` were passed already: their number with these, or the first of these
/// that lowers no kept position. It takes no memory; its calls nest as deep as the term.
#[cycle(pass)]
pub(crate) fn pass(
    search: &Search,
    t: &Term,
    around: &Around,
    before: u32,
) -> Result<u32, NoDescent>
    requires { IsRight search.now }
    ensures { Searches search.now (searched search.now t.now (bound_of around.now)).calls before result }
{
    let passed = pass_own(search, t, around, before)?;
    match t {
        Term::Free(_) | Term::Bound(_) | Term::Lit(_) => Ok(passed),
        Term::Con { fields, .. } => pass_parts(search, fields.as_slice(), around, passed),
        Term::Call { args, .. } => pass_parts(search, args.as_slice(), around, passed),
        Term::Match {
            on,
            datatype,
            arms,
            ..
        } => {
            let scrutinee = pass(search, on.get(), around, passed)?;
            let matched = Matched {
                datatype: *datatype,
                on: standing(on.get(), around),
                around: &*around,
            };
            pass_arms(search, arms.as_slice(), &matched, scrutinee)
        }
    }
}

/// Passes the self-calls in the parts.
#[cycle(pass)]
fn pass_parts(
    search: &Search,
    parts: &[Term],
    around: &Around,
    before: u32,
) -> Result<u32, NoDescent>
    requires { IsRight search.now }
    ensures { Searches search.now (calls_in (map (searched search.now) parts.now) (bound_of around.now)) before result }
{
    let mut passed = before;
    for part in parts {
        passed = pass(search, part, around, passed)?;
    }
    Ok(passed)
}

/// Passes the self-calls in the arms.
#[cycle(pass)]
fn pass_arms(
    search: &Search,
    arms: &[Term],
    matched: &Matched,
    before: u32,
) -> Result<u32, NoDescent>
    requires { IsRight search.now }
    ensures { Searches search.now (arm_calls search.now.program.now matched.now (map (searched search.now) arms.now)) before result }
{
    let mut passed = before;
    for (con, arm) in arms.iter().enumerate() {
        let around = arm_of(search.program, matched, con);
        passed = pass(search, arm, &around, passed)?;
    }
    Ok(passed)
}
