//! The limits of a sequent with a term put in for a variable, asked before anything is built. Nothing here takes memory.
ghost use Rattle.std.specs.Prelude.{◌≡◌, ◌↔◌, ◌-◌, ◌^◌, IsTrue, All, min};
ghost use Rattle.px_terms.specs.declared.clause.Equation.{Equation as Fact};
ghost use Rattle.px_terms.specs.declared.sequent.Present.{Present as Entry};
ghost use Rattle.px_terms.specs.Terms.{term_depth, term_put, term_size};
ghost use Rattle.px_terms.specs.TreeEdits.{equation_put};
ghost use Rattle.px_terms.specs.Sequents.{IsSmall, IsSmallEquation};
ghost use Rattle.px_cases.specs.Ends.{IsSmallPut};

use crate::put_depths::depth_of_put;
use crate::put_sizes::size_of_put;
use px_terms::limits::{FACTS, SEQUENT_DEPTH, SEQUENT_NODES};
use px_terms::{Equation, Present, Sequent, Term, depth, size};

/// A term that is to be put in for a variable, with its nodes and its depth.
#[derive(Clone, Copy)]
struct Put<'a> {
    variable: u32,
    by: &'a Term,
    nodes: u64,
    height: u32,
}

/// Whether each term of the sequent with `by` put in for the variable is within the limits, and the facts are few enough.
pub(crate) fn is_small_put(sequent: &Sequent, variable: u32, by: &Term) -> bool
    ensures { IsTrue result ↔ IsSmallPut sequent.now variable by.now }
{
    let put = Put {
        variable,
        by,
        nodes: size(by),
        height: depth(by),
    };
    let facts = sequent.facts.as_slice();
    facts.len() <= FACTS
        && are_small_present(sequent.frame.entries.as_slice(), &put)
        && are_small_equations(facts, &put)
        && are_small_equations(sequent.alternatives.as_slice(), &put)
}

/// Whether the term with the other put in is within the limits.
fn is_small(term: &Term, put: &Put) -> bool
    requires nodes { put.now.nodes ≡ min (term_size put.now.by.now) (2 ^ 64 - 1) }
    requires height { put.now.height ≡ min (term_depth put.now.by.now) (2 ^ 32 - 1) }
    ensures { IsTrue result ↔ IsSmall (term_put put.now.variable put.now.by.now term.now) }
{
    let nodes = size_of_put(term, put.variable, put.by, put.nodes);
    let height = depth_of_put(term, put.variable, put.by, put.height);
    nodes <= SEQUENT_NODES && height <= SEQUENT_DEPTH
}

/// Whether each present term with the other put in is.
fn are_small_present(entries: &[Present], put: &Put) -> bool
    requires nodes { put.now.nodes ≡ min (term_size put.now.by.now) (2 ^ 64 - 1) }
    requires height { put.now.height ≡ min (term_depth put.now.by.now) (2 ^ 32 - 1) }
    ensures { IsTrue result ↔ All (λ (p : Entry). IsSmall (term_put put.now.variable put.now.by.now p.term)) entries.now }
{
    for present in entries {
        if !is_small(&present.term, put) {
            return false;
        }
    }
    true
}

/// Whether both sides with the term put in are.
fn is_small_equation(equation: &Equation, put: &Put) -> bool
    requires nodes { put.now.nodes ≡ min (term_size put.now.by.now) (2 ^ 64 - 1) }
    requires height { put.now.height ≡ min (term_depth put.now.by.now) (2 ^ 32 - 1) }
    ensures { IsTrue result ↔ IsSmallEquation (equation_put put.now.variable put.now.by.now equation.now) }
{
    is_small(&equation.left, put) && is_small(&equation.right, put)
}

/// Whether both sides of each equation with the term put in are.
fn are_small_equations(equations: &[Equation], put: &Put) -> bool
    requires nodes { put.now.nodes ≡ min (term_size put.now.by.now) (2 ^ 64 - 1) }
    requires height { put.now.height ≡ min (term_depth put.now.by.now) (2 ^ 32 - 1) }
    ensures { IsTrue result ↔ All (λ (e : Fact). IsSmallEquation (equation_put put.now.variable put.now.by.now e)) equations.now }
{
    for equation in equations {
        if !is_small_equation(equation, put) {
            return false;
        }
    }
    true
}
