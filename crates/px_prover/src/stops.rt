//! What blocks a normal term.

ghost use Rattle.std.specs.Prelude.{◌≡◌, [], ◌∷◌, if◌then◌else◌, None, Some};
ghost use Rattle.std.specs.Option.{option_copied, option_or};
ghost use Rattle.px_prover.specs.Norms.{first_stop as stop_from, inner as inner_of, is_match_free as has_no_match, are_match_free as have_no_match};
ghost use Rattle.px_prover.specs.Normalising.{stops_in, stops_of};

use crate::stages::StopTree;
use px_terms::{Head, Term};
use sqlite_items::at;

/// What blocks where something is blocked at this normal term: a variable itself; a match, or a call of a definition, by what it
/// is blocked at; another call by its first argument that is blocked, or as it is where it has no match. It takes no memory.
pub(crate) fn inner<'a>(u: &'a Term, stops: &'a StopTree) -> Option<&'a Term>
    ensures { option_copied result ≡ inner_of u.now (stops_in stops.now) }
{
    match u {
        Term::Free(_) => Some(u),
        Term::Match { .. } => stops.own.as_ref(),
        Term::Call { fun, args, .. } => match fun.head {
            Head::Def(_) => stops.own.as_ref(),
            Head::Wle | Head::Weq | Head::FnVar(_) => {
                stop_of_call(u, stops.parts.as_slice(), args.len())
            }
        },
        Term::Bound(_) | Term::Lit(_) | Term::Con { .. } => None,
    }
}

/// What a call of no definition blocks by: its first argument of so many that is blocked, or itself where it has no match.
fn stop_of_call<'a>(u: &'a Term, parts: &'a [StopTree], count: usize) -> Option<&'a Term>
    ensures { option_copied result ≡ option_or (stop_from (stops_of parts.now) 0 count) (if has_no_match u.now then Some u.now else None) }
{
    match first_stop(parts, count) {
        Some(stop) => Some(stop),
        None => { if is_match_free(u) { Some(u) } else { None } }
    }
}

/// What the first of so many parts is blocked at that is blocked at something.
fn first_stop(parts: &[StopTree], count: usize) -> Option<&Term>
    ensures { option_copied result ≡ stop_from (stops_of parts.now) 0 count }
{
    for number in 0..count {
        match stop_of_part(parts, number) {
            Some(stop) => return Some(stop),
            None => {}
        }
    }
    None
}

/// What the part of this number is blocked at.
fn stop_of_part(parts: &[StopTree], number: usize) -> Option<&Term>
    ensures { option_copied result ≡ stops_of parts.now (number ∷ []) }
{
    match at(parts, number) {
        Some(part) => part.own.as_ref(),
        None => None,
    }
}

/// The term has no match. It takes no memory; its calls nest as deep as the term.
#[cycle(is_match_free)]
pub(crate) fn is_match_free(t: &Term) -> bool
    ensures { result ≡ has_no_match t.now }
{
    match t {
        Term::Con { fields, .. } => are_match_free(fields.as_slice()),
        Term::Call { args, .. } => are_match_free(args.as_slice()),
        Term::Match { .. } => false,
        Term::Free(_) | Term::Bound(_) | Term::Lit(_) => true,
    }
}

/// None of the terms has a match.
#[cycle(is_match_free)]
fn are_match_free(terms: &[Term]) -> bool
    ensures { result ≡ have_no_match terms.now }
{
    for t in terms {
        if !is_match_free(t) {
            return false;
        }
    }
    true
}
