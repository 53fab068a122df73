//! Instances of a clause's equations, and the children that they are in.
ghost use Rattle.std.specs.Prelude.{◌≡◌, ◌++◌, ◌∷◌, [], All, IfOk, OnOk, IsOkUnless, map};
ghost use Rattle.px_terms.specs.declared.clause.Equation.{Equation as AnyEquation};
ghost use Rattle.px_terms.specs.Noting.{equation_instance, equations_instance};
ghost use Rattle.px_terms.specs.Terms.{term_instance};
ghost use Rattle.px_terms.specs.Sequents.{IsSmall, IsSmallEquation, IsWithinLimits};
ghost use Rattle.px_terms.specs.Rows.{noted, to_show, with_facts};
ghost use Rattle.px_replay.specs.Replaying.{IsRightlyMarked};

use crate::copies::{copy_context, copy_open};
use crate::ends::RowEnd;
use crate::limits::is_small;
use crate::open_sequents::{Open, is_child_within};
use px_induct::copy_frame;
use px_terms::limits::{FACTS, SEQUENT_NODES};
use px_terms::{
    Clause, Equation, EquationList, Sequent, Sigma, Term, copy_equations, instance,
    size_of_instance,
};
use sqlite_items::Items;
use std::alloc::Global;

/// The instance of a term, where it is within the limits: its size is asked before it is built.
fn small_instance(alloc: Global, term: &Term, sigma: &Sigma) -> Result<Term, RowEnd>
    ensures made { IfOk result (λ made. (made ≡ term_instance sigma.now term.now) × IsSmall made) }
    ensures only { IsSmall (term_instance sigma.now term.now) → IsOkUnless result RowEnd.NoMemory }
{
    if size_of_instance(term, sigma) > SEQUENT_NODES {
        return Err(RowEnd::NoRule);
    }
    let made = instance(alloc, term, sigma)?;
    if !is_small(&made) {
        return Err(RowEnd::NoRule);
    }
    Ok(made)
}

/// The instance of an equation, where both sides are within the limits.
fn small_equation(alloc: Global, equation: &Equation, sigma: &Sigma) -> Result<Equation, RowEnd>
    ensures made { IfOk result (λ made. (made ≡ equation_instance sigma.now equation.now) × IsSmallEquation made) }
    ensures only { IsSmallEquation (equation_instance sigma.now equation.now) → IsOkUnless result RowEnd.NoMemory }
{
    Ok(Equation {
        left: small_instance(alloc, &equation.left, sigma)?,
        right: small_instance(alloc, &equation.right, sigma)?,
    })
}

/// The sequent with the instance of an equation as its only alternative: a premise that is to be shown.
fn shown(alloc: Global, top: &Open, premise: &Equation, sigma: &Sigma) -> Result<Sequent, RowEnd>
    requires { IsRightlyMarked top.now }
    ensures made { IfOk result (λ child. (child ≡ to_show top.now.sequent (equation_instance sigma.now premise.now)) × IsWithinLimits child) }
    ensures only { IsWithinLimits (to_show top.now.sequent (equation_instance sigma.now premise.now)) → IsOkUnless result RowEnd.NoMemory }
{
    let mut alternatives = EquationList::new(alloc);
    alternatives.push(small_equation(alloc, premise, sigma)?)?;
    let child = Sequent {
        context: copy_context(alloc, &top.sequent.context)?,
        frame: copy_frame(alloc, &top.sequent.frame)?,
        facts: copy_equations(alloc, top.sequent.facts.as_slice())?,
        alternatives,
        next: top.sequent.next,
    };
    if !is_child_within(top.is_within, &child) {
        return Err(RowEnd::NoRule);
    }
    Ok(child)
}

/// The sequent with the instance of an equation as a new last fact: an alternative of the clause that is true.
fn assumed(
    alloc: Global,
    top: Open,
    alternative: &Equation,
    sigma: &Sigma,
) -> Result<Sequent, RowEnd>
    requires { IsRightlyMarked top }
    ensures made { IfOk result (λ child. (child ≡ with_facts top.sequent (equation_instance sigma.now alternative.now ∷ [])) × IsWithinLimits child) }
    ensures only { IsWithinLimits (with_facts top.sequent (equation_instance sigma.now alternative.now ∷ [])) → IsOkUnless result RowEnd.NoMemory }
{
    let Open {
        mut sequent,
        is_within,
    } = top;
    let fact = small_equation(alloc, alternative, sigma)?;
    sequent.facts.push(fact)?;
    let is_few = sequent.facts.as_slice().len() <= FACTS;
    if !is_few || !is_child_within(is_within, &sequent) {
        return Err(RowEnd::NoRule);
    }
    Ok(sequent)
}

/// Adds the children in which the instance of each premise is to be shown.
fn push_shown(
    alloc: Global,
    top: &Open,
    premises: &[Equation],
    sigma: &Sigma,
    children: &mut Items<Sequent>,
) -> Result<(), RowEnd>
    requires { IsRightlyMarked top.now }
    ensures made { OnOk result (children.new ≡ children.old ++ map (to_show top.now.sequent) (equations_instance sigma.now premises.now)) }
    ensures small { All IsWithinLimits children.old → OnOk result (All IsWithinLimits children.new) }
    ensures only { All IsWithinLimits (map (to_show top.now.sequent) (equations_instance sigma.now premises.now)) → IsOkUnless result RowEnd.NoMemory }
{
    for premise in premises {
        children.push(shown(alloc, top, premise, sigma)?)?;
    }
    Ok(())
}

/// Adds copies of the sequent in which the instance of each alternative is a new last fact.
fn push_assumed(
    alloc: Global,
    top: &Open,
    alternatives: &[Equation],
    sigma: &Sigma,
    children: &mut Items<Sequent>,
) -> Result<(), RowEnd>
    requires { IsRightlyMarked top.now }
    ensures made { OnOk result (children.new ≡ children.old ++ map (λ (e : AnyEquation). with_facts top.now.sequent (e ∷ [])) (equations_instance sigma.now alternatives.now)) }
    ensures small { All IsWithinLimits children.old → OnOk result (All IsWithinLimits children.new) }
    ensures only { All IsWithinLimits (map (λ (e : AnyEquation). with_facts top.now.sequent (e ∷ [])) (equations_instance sigma.now alternatives.now)) → IsOkUnless result RowEnd.NoMemory }
{
    for alternative in alternatives {
        let copy = copy_open(alloc, top)?;
        children.push(assumed(alloc, copy, alternative, sigma)?)?;
    }
    Ok(())
}

/// What a note leaves of a sequent: a child for the instance of each premise, and then one for that of each alternative. The
/// last one is the sequent itself, moved.
pub(crate) fn noted_children(
    alloc: Global,
    top: Open,
    clause: &Clause,
    sigma: &Sigma,
) -> Result<Items<Sequent>, RowEnd>
    requires { IsRightlyMarked top }
    ensures made { IfOk result (λ children. (children ≡ noted top.sequent clause.now sigma.now) × All IsWithinLimits children) }
    ensures only { All IsWithinLimits (noted top.sequent clause.now sigma.now) → IsOkUnless result RowEnd.NoMemory }
{
    let mut children = Items::new(alloc);
    push_shown(
        alloc,
        &top,
        clause.premises.as_slice(),
        sigma,
        &mut children,
    )?;
    let [others @ .., last] = clause.alternatives.as_slice() else {
        return Ok(children);
    };
    push_assumed(alloc, &top, others, sigma, &mut children)?;
    children.push(assumed(alloc, top, last, sigma)?)?;
    Ok(children)
}
