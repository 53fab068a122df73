//! The limits of sequents.

ghost use Rattle.std.specs.Prelude.{◌↔◌, IsTrue, All, IfSome, Option};
ghost use Rattle.px_terms.specs.declared.types.Ty.{Ty};
ghost use Rattle.px_terms.specs.declared.sequent.Present.{Present};
ghost use Rattle.px_terms.specs.Sequents.{IsSmall, IsSmallType, IsSmallEquation, IsWithinLimits};

use px_terms::limits::{FACTS, SEQUENT_DEPTH, SEQUENT_NODES, VARIABLES};
use px_terms::{Equation, Present, Sequent, Term, Ty, depth, depth_of_ty, size, size_of_ty};

/// The term is within the limits of a sequent.
pub(crate) fn is_small(term: &Term) -> bool
    ensures { IsTrue result ↔ IsSmall term.now }
{
    size(term) <= SEQUENT_NODES && depth(term) <= SEQUENT_DEPTH
}

/// The type is within the limits of a sequent.
fn is_small_type(ty: &Ty) -> bool
    ensures { IsTrue result ↔ IsSmallType ty.now }
{
    size_of_ty(ty) <= SEQUENT_NODES && depth_of_ty(ty) <= SEQUENT_DEPTH
}

/// The types of the live variables are within the limits.
fn are_small_types(vars: &[Option<Ty>]) -> bool
    ensures { IsTrue result ↔ All (λ (v : Option Ty). IfSome v IsSmallType) vars.now }
{
    for var in vars {
        if let Some(ty) = var
            && !is_small_type(ty)
        {
            return false;
        }
    }
    true
}

/// Both sides are within the limits.
pub(crate) fn is_small_equation(equation: &Equation) -> bool
    ensures { IsTrue result ↔ IsSmallEquation equation.now }
{
    is_small(&equation.left) && is_small(&equation.right)
}

/// Both sides of each equation are within the limits.
fn are_small_equations(equations: &[Equation]) -> bool
    ensures { IsTrue result ↔ All IsSmallEquation equations.now }
{
    for equation in equations {
        if !is_small_equation(equation) {
            return false;
        }
    }
    true
}

/// Each present term is within the limits.
fn are_small_present(entries: &[Present]) -> bool
    ensures { IsTrue result ↔ All (λ (p : Present). IsSmall p.term) entries.now }
{
    for present in entries {
        if !is_small(&present.term) {
            return false;
        }
    }
    true
}

/// The sequent is within the limits.
pub(crate) fn is_within_limits(sequent: &Sequent) -> bool
    ensures { IsTrue result ↔ IsWithinLimits sequent.now }
{
    sequent.next <= VARIABLES
        && sequent.facts.as_slice().len() <= FACTS
        && are_small_types(sequent.context.vars.as_slice())
        && are_small_present(sequent.frame.entries.as_slice())
        && are_small_equations(sequent.facts.as_slice())
        && are_small_equations(sequent.alternatives.as_slice())
}
