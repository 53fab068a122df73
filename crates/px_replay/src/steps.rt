//! Steps: a side of an alternative or of a fact becomes what a step makes of it.
ghost use Rattle.std.specs.Prelude.{◌≡◌, ℕ, ◌∷◌, [], List, IfOk, IsOkUnless, MatchResult};
ghost use Rattle.px_terms.specs.declared.term.Term.{Term as Tree};
ghost use Rattle.px_terms.specs.declared.sequent.Sequent.{Sequent as AnySequent};
ghost use Rattle.px_terms.specs.declared.row.Row.TheVariants as rows;
ghost use Rattle.px_terms.specs.declared.row.Target.TheVariants as targets;
ghost use Rattle.px_terms.specs.Rows.{Opens};
ghost use Rattle.px_terms.specs.Sequents.{IsWithinLimits, side_of};
ghost use Rattle.px_replay.specs.Replaying.{IsRightlyMarked, StepsSide};

use crate::ends::RowEnd;
use crate::open_sequents::{Open, is_child_within};
use px_descent::Checked;
use px_rewrite::step;
use px_terms::{Equation, Kind, Path, Sequent, Side, Target, Term};
use sqlite_items::at;
use std::alloc::Global;

/// A side of an equation.
fn term_of(equation: &Equation, side: Side) -> &Term
    ensures { result.now ≡ side_of equation.now side }
{
    match side {
        Side::Left => &equation.left,
        Side::Right => &equation.right,
    }
}

/// What a step makes of a side of the equation of this number. The facts and the equation are looked at in place.
fn step_side(
    alloc: Global,
    checked: &Checked,
    facts: &[Equation],
    equations: &[Equation],
    place: (u32, Side),
    path: &Path,
    kind: Kind,
) -> Result<Term, RowEnd>
    ensures steps { IfOk result (StepsSide checked.now facts.now equations.now place.0 place.1 path.now kind) }
    ensures only { (t : Tree) → StepsSide checked.now facts.now equations.now place.0 place.1 path.now kind t → MatchResult result (λ found. found ≡ t) (λ end. end ≡ RowEnd.NoMemory) }
{
    let (number, side) = place;
    let Some(equation) = at(equations, number as usize) else {
        return Err(RowEnd::NoRule);
    };
    let term = term_of(equation, side);
    Ok(step(alloc, checked, facts, term, path, kind)?)
}

/// The sequent with a side of an alternative stepped. Of a sequent within the limits only that side is asked for its size.
fn step_alternative(
    alloc: Global,
    checked: &Checked,
    top: Open,
    place: (u32, Side),
    path: &Path,
    kind: Kind,
) -> Result<Sequent, RowEnd>
    requires { IsRightlyMarked top }
    ensures opens { IfOk result (λ child. (n : ℕ) → Opens checked.now n top.sequent (rows.Step (targets.Alternative place.0 place.1) path.now kind) (child ∷ [])) }
    ensures small { IfOk result IsWithinLimits }
    ensures only { (n : ℕ) (children : List AnySequent) → Opens checked.now n top.sequent (rows.Step (targets.Alternative place.0 place.1) path.now kind) children → IsOkUnless result RowEnd.NoMemory }
{
    let Open {
        mut sequent,
        is_within,
    } = top;
    let facts = sequent.facts.as_slice();
    let alternatives = sequent.alternatives.as_slice();
    let whole = step_side(alloc, checked, facts, alternatives, place, path, kind)?;
    sequent
        .alternatives
        .set_side(place.0 as usize, place.1, whole);
    if !is_child_within(is_within, &sequent) {
        return Err(RowEnd::NoRule);
    }
    Ok(sequent)
}

/// The same of a side of a fact.
fn step_fact(
    alloc: Global,
    checked: &Checked,
    top: Open,
    place: (u32, Side),
    path: &Path,
    kind: Kind,
) -> Result<Sequent, RowEnd>
    requires { IsRightlyMarked top }
    ensures opens { IfOk result (λ child. (n : ℕ) → Opens checked.now n top.sequent (rows.Step (targets.Fact place.0 place.1) path.now kind) (child ∷ [])) }
    ensures small { IfOk result IsWithinLimits }
    ensures only { (n : ℕ) (children : List AnySequent) → Opens checked.now n top.sequent (rows.Step (targets.Fact place.0 place.1) path.now kind) children → IsOkUnless result RowEnd.NoMemory }
{
    let Open {
        mut sequent,
        is_within,
    } = top;
    let facts = sequent.facts.as_slice();
    let whole = step_side(alloc, checked, facts, facts, place, path, kind)?;
    sequent.facts.set_side(place.0 as usize, place.1, whole);
    if !is_child_within(is_within, &sequent) {
        return Err(RowEnd::NoRule);
    }
    Ok(sequent)
}

/// The sequent with the stepped side in its old place; the rest of it is moved. It takes memory for that side alone.
pub(crate) fn step_target(
    alloc: Global,
    checked: &Checked,
    top: Open,
    target: Target,
    path: &Path,
    kind: Kind,
) -> Result<Sequent, RowEnd>
    requires { IsRightlyMarked top }
    ensures opens { IfOk result (λ child. (n : ℕ) → Opens checked.now n top.sequent (rows.Step target path.now kind) (child ∷ [])) }
    ensures small { IfOk result IsWithinLimits }
    ensures only { (n : ℕ) (children : List AnySequent) → Opens checked.now n top.sequent (rows.Step target path.now kind) children → IsOkUnless result RowEnd.NoMemory }
{
    match target {
        Target::Alternative { number, side } => {
            step_alternative(alloc, checked, top, (number, side), path, kind)
        }
        Target::Fact { number, side } => step_fact(alloc, checked, top, (number, side), path, kind),
    }
}
