//! The limits of sequents. Nothing here takes memory.
ghost use Rattle.std.specs.Prelude.{◌↔◌, IsTrue, All, IfSome, Option};
ghost use Rattle.px_terms.specs.declared.types.Ty.{Ty as Kind};
ghost use Rattle.px_terms.specs.declared.sequent.Present.{Present as Entry};
ghost use Rattle.px_terms.specs.Sequents.{IsSmall, IsSmallType, IsSmallEquation, IsWithinLimits};
ghost use Rattle.px_terms.specs.Types.{ty_instance, tys_instance};

use px_terms::limits::{FACTS, SEQUENT_DEPTH, SEQUENT_NODES, VARIABLES};
use px_terms::{
    Equation, Present, Sequent, Term, Ty, depth, instance_is_within, size, ty_is_within,
};

/// Whether the term is within the limits of a sequent. It takes no memory.
pub fn is_small(term: &Term) -> bool
    ensures { IsTrue result ↔ IsSmall term.now }
{
    size(term) <= SEQUENT_NODES && depth(term) <= SEQUENT_DEPTH
}

/// Whether the type is within the limits of a sequent.
fn is_small_type(ty: &Ty) -> bool
    ensures { IsTrue result ↔ IsSmallType ty.now }
{
    ty_is_within(ty, SEQUENT_NODES, SEQUENT_DEPTH)
}

/// Whether the type with these types put in, which is not made, is within the limits of a sequent.
fn is_small_instance(ty: &Ty, types: &[Ty]) -> bool
    ensures { IsTrue result ↔ IsSmallType (ty_instance types.now ty.now) }
{
    instance_is_within(ty, types, SEQUENT_NODES, SEQUENT_DEPTH)
}

/// Whether each type with these types put in is within the limits of a sequent.
pub(crate) fn are_small_instances(fields: &[Ty], types: &[Ty]) -> bool
    ensures { IsTrue result ↔ All IsSmallType (tys_instance types.now fields.now) }
{
    for field in fields {
        if !is_small_instance(field, types) {
            return false;
        }
    }
    true
}

/// Whether the types of the live variables are within the limits.
pub(crate) fn are_small_types(vars: &[Option<Ty>]) -> bool
    ensures { IsTrue result ↔ All (λ (v : Option Kind). IfSome v IsSmallType) vars.now }
{
    for var in vars {
        if let Some(ty) = var
            && !is_small_type(ty)
        {
            return false;
        }
    }
    true
}

/// Whether both sides are within the limits.
fn is_small_equation(equation: &Equation) -> bool
    ensures { IsTrue result ↔ IsSmallEquation equation.now }
{
    is_small(&equation.left) && is_small(&equation.right)
}

/// Whether both sides of each equation are within the limits.
fn are_small_equations(equations: &[Equation]) -> bool
    ensures { IsTrue result ↔ All IsSmallEquation equations.now }
{
    for equation in equations {
        if !is_small_equation(equation) {
            return false;
        }
    }
    true
}

/// Whether each present term is within the limits.
fn are_small_present(entries: &[Present]) -> bool
    ensures { IsTrue result ↔ All (λ (p : Entry). IsSmall p.term) entries.now }
{
    for present in entries {
        if !is_small(&present.term) {
            return false;
        }
    }
    true
}

/// Whether the sequent is within the limits. It takes no memory.
pub fn is_within_limits(sequent: &Sequent) -> bool
    ensures { IsTrue result ↔ IsWithinLimits sequent.now }
{
    sequent.next <= VARIABLES
        && sequent.facts.as_slice().len() <= FACTS
        && are_small_types(sequent.context.vars.as_slice())
        && are_small_present(sequent.frame.entries.as_slice())
        && are_small_equations(sequent.facts.as_slice())
        && are_small_equations(sequent.alternatives.as_slice())
}
