//! Which alternative or fact closes a sequent as it stands.
ghost use Rattle.std.specs.Prelude.{◌≡◌, ◌<◌, ◌^◌, ◌↔◌, ℕ, IsTrue, MatchOption, Some, length, slice_get};
ghost use Rattle.px_terms.specs.declared.clause.Equation.{Equation as Sides};
ghost use Rattle.px_terms.specs.Rows.{HeadsClash};
ghost use Rattle.px_prover.specs.Plain.{IsClosedAtOnce};

use px_cases::clashes;
use px_terms::{Equation, Sequent, same_term};

/// The sequent is closed as it stands: the heads of a fact clash, or an alternative's sides are one term. It takes no memory.
pub(crate) fn is_closed_at_once(sequent: &Sequent) -> bool
    requires few { length sequent.now.facts < 2 ^ 32 }
    ensures { IsTrue result ↔ IsClosedAtOnce sequent.now }
{
    first_clash(sequent).is_some() || first_equal(sequent.alternatives.as_slice()).is_some()
}

/// The number of the first fact whose heads clash. It takes no memory.
pub(crate) fn first_clash(sequent: &Sequent) -> Option<u32>
    requires few { length sequent.now.facts < 2 ^ 32 }
    ensures { MatchOption result ((i : ℕ) (e : Sides) → slice_get sequent.now.facts i ≡ Some e → ¬ HeadsClash e.left e.right) (λ number. (e : Sides) × (slice_get sequent.now.facts number ≡ Some e) × HeadsClash e.left e.right) }
{
    for number in 0..sequent.facts.as_slice().len() {
        if clashes_at(sequent, number as u32) {
            return Some(number as u32);
        }
    }
    None
}

/// There is a fact of this number, and its heads clash.
fn clashes_at(sequent: &Sequent, number: u32) -> bool
    ensures { IsTrue result ↔ ((e : Sides) × (slice_get sequent.now.facts number ≡ Some e) × HeadsClash e.left e.right) }
{
    match clashes(sequent, number) {
        Ok(clash) => clash,
        Err(_) => false,
    }
}

/// The number of the first equation whose sides are one term. It takes no memory.
pub(crate) fn first_equal(equations: &[Equation]) -> Option<usize>
    ensures { MatchOption result ((i : ℕ) (e : Sides) → slice_get equations.now i ≡ Some e → ¬ (e.left ≡ e.right)) (λ number. (e : Sides) × (slice_get equations.now number ≡ Some e) × (e.left ≡ e.right)) }
{
    for number in 0..equations.len() {
        let sides = &equations[number];
        if same_term(&sides.left, &sides.right) {
            return Some(number);
        }
    }
    None
}
