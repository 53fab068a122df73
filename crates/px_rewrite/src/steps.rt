//! A step at a place of a term.
ghost use Rattle.std.specs.Prelude.{◌≡◌, ◌≤◌, ◌↔◌, ◌-◌, ◌^◌, min, IfOk, IsOkUnless, IsTrue, MatchResult, Err, Some};
ghost use Rattle.px_terms.specs.declared.term.Term.{Term as Tree};
ghost use Rattle.px_terms.specs.limits.TheConstants.{SEQUENT_DEPTH, SEQUENT_NODES};
ghost use Rattle.px_terms.specs.Terms.{subterm, term_depth, term_size};
ghost use Rattle.px_terms.specs.Sequents.{IsSmall};
ghost use Rattle.px_terms.specs.Steps.{Step};
ghost use Rattle.px_rewrite.specs.declared.steps.StepEnd.TheVariants as ends;

use crate::replacing::put_at;
use crate::turns::turned;
use px_descent::Checked;
use px_terms::limits::{SEQUENT_DEPTH, SEQUENT_NODES};
use px_terms::{Equation, Kind, NoMemory, Path, Program, Term, at_path, depth, size};
use std::alloc::{AllocError, Global};

/// Why there is no step.
#[derive(Clone, Copy, Debug, PartialEq, Eq)]
pub enum StepEnd {
    /// The term has no such step there, or its result is over the limits of a sequent.
    NoStep,
    /// No memory was left.
    NoMemory,
}

impl From<NoMemory> for StepEnd {
    ghost from_gives = { λ _ end. end ≡ ends.NoMemory };

    fn from(_end: NoMemory) -> StepEnd {
        StepEnd::NoMemory
    }
}

impl From<AllocError> for StepEnd {
    ghost from_gives = { λ _ end. end ≡ ends.NoMemory };

    fn from(_end: AllocError) -> StepEnd {
        StepEnd::NoMemory
    }
}

/// What the term becomes by a step of this kind at the place, where these facts stand. NoStep exactly where there is none:
/// the term has no such place; no such call, match, comparison or side of a fact stands there; or the result would have
/// more than SEQUENT_NODES nodes or more than SEQUENT_DEPTH levels. The facts are looked at in place.
///
/// It takes memory for the result, whose size is known before, and where a call is unfolded for a copy of its arguments; its calls
/// nest as deep as the terms.
pub fn step(
    alloc: Global,
    checked: &Checked,
    facts: &[Equation],
    term: &Term,
    path: &Path,
    kind: Kind,
) -> Result<Term, StepEnd>
    ensures ok { IfOk result (λ t. Step checked.now facts.now term.now path.now kind t) }
    // Where there is a step, it is the answer, besides want of memory.
    ensures only { (t : Tree) → Step checked.now facts.now term.now path.now kind t → MatchResult result (λ found. found ≡ t) (λ end. end ≡ StepEnd.NoMemory) }
    ensures no_step { result ≡ Err StepEnd.NoStep → (t : Tree) → ¬ Step checked.now facts.now term.now path.now kind t }
{
    stepped(alloc, checked.program(), facts, term, path, kind)
}

/// What the term becomes. NoStep where there is no such step, or where its result is over the limits.
fn stepped(
    alloc: Global,
    program: &Program,
    facts: &[Equation],
    term: &Term,
    path: &Path,
    kind: Kind,
) -> Result<Term, StepEnd>
    ensures ok { IfOk result (λ t. Step program.now facts.now term.now path.now kind t) }
    ensures only { (t : Tree) → Step program.now facts.now term.now path.now kind t → IsOkUnless result StepEnd.NoMemory }
{
    let Some(part) = at_path(term, path) else {
        return Err(StepEnd::NoStep);
    };
    let room = room_in(term, path, part);
    let becomes = turned(alloc, program, facts, part, kind, room)?;
    let Some(whole) = put_at(alloc, term, path, becomes)? else {
        return Err(StepEnd::NoStep);
    };
    if !is_small(&whole) {
        return Err(StepEnd::NoStep);
    }
    Ok(whole)
}

/// How many nodes may stand in place of the part at this place, so that the term stays within the limits. In place of the whole
/// term as many may stand as a term may have, and nothing is counted.
fn room_in(term: &Term, path: &Path, part: &Term) -> u64
    ensures { subterm term.now path.now ≡ Some part.now → result ≡ SEQUENT_NODES - (min (term_size term.now) (2 ^ 64 - 1) - min (term_size part.now) (2 ^ 64 - 1)) }
{
    if path.as_slice().is_empty() {
        return SEQUENT_NODES;
    }
    SEQUENT_NODES.saturating_sub(size(term).saturating_sub(size(part)))
}

/// The term is within the limits of a sequent. No term is deeper than it has nodes, so that the levels of a small one are not
/// counted.
fn is_small(term: &Term) -> bool
    ensures { IsTrue result ↔ IsSmall term.now }
{
    let nodes = size(term);
    nodes <= SEQUENT_NODES && is_shallow(term, nodes)
}

/// The term, which has so many nodes, is no deeper than a term of a sequent may be.
fn is_shallow(term: &Term, nodes: u64) -> bool
    requires { nodes ≡ min (term_size term.now) (2 ^ 64 - 1) }
    ensures { IsTrue result ↔ (term_depth term.now ≤ SEQUENT_DEPTH) }
{
    nodes <= u64::from(SEQUENT_DEPTH) || depth(term) <= SEQUENT_DEPTH
}
