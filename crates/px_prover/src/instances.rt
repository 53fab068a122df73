//! Instances of the equations of clauses, within the limits of a sequent.
ghost use Rattle.std.specs.Prelude.{◌≡◌, IfOk, MatchOption};
ghost use Rattle.px_terms.specs.Terms.{term_instance};
ghost use Rattle.px_terms.specs.Noting.{equation_instance};
ghost use Rattle.px_terms.specs.Sequents.{IsSmall, IsSmallEquation};

use px_cases::is_small;
use px_terms::limits::SEQUENT_NODES;
use px_terms::{Equation, NoMemory, Sigma, Term, instance, size_of_instance};
use std::alloc::Global;

/// The instance of the equation, where both sides are within the limits: their sizes are asked before they are made. It takes
/// memory.
pub(crate) fn small_equation(
    alloc: Global,
    equation: &Equation,
    sigma: &Sigma,
) -> Result<Option<Equation>, NoMemory>
    ensures { IfOk result (λ found. MatchOption found (¬ IsSmallEquation (equation_instance sigma.now equation.now)) (λ made. (made ≡ equation_instance sigma.now equation.now) × IsSmallEquation made)) }
{
    let Some(left) = small_instance(alloc, &equation.left, sigma)? else {
        return Ok(None);
    };
    let Some(right) = small_instance(alloc, &equation.right, sigma)? else {
        return Ok(None);
    };
    Ok(Some(Equation { left, right }))
}

/// The instance of the term, where it is within the limits.
fn small_instance(alloc: Global, t: &Term, sigma: &Sigma) -> Result<Option<Term>, NoMemory>
    ensures { IfOk result (λ found. MatchOption found (¬ IsSmall (term_instance sigma.now t.now)) (λ made. (made ≡ term_instance sigma.now t.now) × IsSmall made)) }
{
    if size_of_instance(t, sigma) > SEQUENT_NODES {
        return Ok(None);
    }
    let made = instance(alloc, t, sigma)?;
    if !is_small(&made) {
        return Ok(None);
    }
    Ok(Some(made))
}
