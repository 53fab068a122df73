//! What stands in terms: their parts, in arms too.
ghost use Rattle.std.specs.Prelude.{◌≡◌, ◌<◌, ◌^◌, ◌↔◌, ◌⊎◌, ◌++◌, ◌∷◌, [], All, Contains, IfOk, IsTrue, Some, length, slice_get, true};
ghost use Rattle.std.specs.Option.{option_copied};
ghost use Rattle.px_terms.specs.declared.term.Term.{Term as Tree, out-Term};
ghost use Rattle.px_terms.specs.Terms.{term_size};
ghost use Rattle.px_terms.specs.Sequents.{IsSmallEquation};
ghost use Rattle.px_prover.specs.Settling.{facts_used};
ghost use Rattle.px_prover.specs.Uses.{StandsIn, StandsThere, parts_of, sides_of};

use px_terms::{Equation, NoMemory, Term, copy, same_term};
use sqlite_items::{Items, at};
use std::alloc::Global;

/// Copies of the terms that stand in the sides of the alternatives, and of the facts that are used. It takes memory.
pub(crate) fn parts_of_branch(
    alloc: Global,
    alternatives: &[Equation],
    facts: &[Equation],
    used: &[bool],
) -> Result<Items<Term>, NoMemory>
    requires small_alternatives { All IsSmallEquation alternatives.now }
    requires small_facts { All IsSmallEquation facts.now }
    ensures { IfOk result (λ parts. (u : Tree) → Contains parts u ↔ StandsThere (sides_of alternatives.now ++ sides_of (facts_used used.now facts.now)) u) }
{
    let mut parts = parts_of_sides(alloc, alternatives)?;
    let more = parts_of_used(alloc, facts, used)?;
    parts.append(more)?;
    Ok(parts)
}

/// Copies of the terms that stand in sides of the equations.
fn parts_of_sides(alloc: Global, equations: &[Equation]) -> Result<Items<Term>, NoMemory>
    requires small { All IsSmallEquation equations.now }
    ensures { IfOk result (λ parts. (u : Tree) → Contains parts u ↔ StandsThere (sides_of equations.now) u) }
{
    let mut parts = Items::new(alloc);
    for equation in equations {
        let more = parts_of_equation(alloc, equation)?;
        parts.append(more)?;
    }
    Ok(parts)
}

/// Copies of the terms that stand in sides of the facts that are used.
fn parts_of_used(alloc: Global, facts: &[Equation], used: &[bool]) -> Result<Items<Term>, NoMemory>
    requires small { All IsSmallEquation facts.now }
    ensures { IfOk result (λ parts. (u : Tree) → Contains parts u ↔ StandsThere (sides_of (facts_used used.now facts.now)) u) }
{
    let mut parts = Items::new(alloc);
    for number in 0..facts.len() {
        if !is_marked(used, number) {
            continue;
        }
        let more = parts_of_equation(alloc, &facts[number])?;
        parts.append(more)?;
    }
    Ok(parts)
}

/// The item of this number is true.
fn is_marked(used: &[bool], number: usize) -> bool
    ensures { IsTrue result ↔ (slice_get used.now number ≡ Some true) }
{
    match at(used, number) {
        Some(marked) => *marked,
        None => false,
    }
}

/// Copies of the terms that stand in the sides of the equation.
fn parts_of_equation(alloc: Global, equation: &Equation) -> Result<Items<Term>, NoMemory>
    requires small { IsSmallEquation equation.now }
    ensures { IfOk result (λ parts. (u : Tree) → Contains parts u ↔ StandsThere (equation.now.left ∷ equation.now.right ∷ []) u) }
{
    let mut parts = parts_in(alloc, &equation.left)?;
    let more = parts_in(alloc, &equation.right)?;
    parts.append(more)?;
    Ok(parts)
}

/// Copies of the terms that stand in the term: itself, and those that stand in its parts. It takes memory.
pub(crate) fn parts_in(alloc: Global, t: &Term) -> Result<Items<Term>, NoMemory>
    requires fits { term_size t.now < 2 ^ 32 }
    ensures { IfOk result (λ parts. (u : Tree) → Contains parts u ↔ StandsIn u t.now) }
{
    let mut parts = Items::new(alloc);
    parts.push(copy(alloc, t)?)?;
    for number in 0..part_count(t) {
        let Some(part) = part_at(t, number) else {
            unreachable!()
        };
        let more = parts_in(alloc, part)?;
        parts.append(more)?;
    }
    Ok(parts)
}

/// How many parts the term has.
fn part_count(t: &Term) -> usize
    requires fits { term_size t.now < 2 ^ 32 }
    ensures { result ≡ length (parts_of (out-Term t.now)) }
{
    match t {
        Term::Free(_) | Term::Bound(_) | Term::Lit(_) => 0,
        Term::Con { fields, .. } => fields.len(),
        Term::Call { args, .. } => args.len(),
        Term::Match { arms, .. } => arms.len() + 1,
    }
}

/// The part of this number, if there is one: a field, an argument, or the scrutinee before the arms. It takes no memory.
fn part_at<'a>(t: &'a Term, number: usize) -> Option<&'a Term>
    ensures { option_copied result ≡ slice_get (parts_of (out-Term t.now)) number }
{
    match t {
        Term::Free(_) | Term::Bound(_) | Term::Lit(_) => None,
        Term::Con { fields, .. } => at(fields.as_slice(), number),
        Term::Call { args, .. } => at(args.as_slice(), number),
        Term::Match { on, arms, .. } => {
            if number == 0 {
                Some(on.get())
            } else {
                at(arms.as_slice(), number - 1)
            }
        }
    }
}

/// Copies of the terms, each once. It takes memory.
pub(crate) fn each_once(alloc: Global, terms: &[Term]) -> Result<Items<Term>, NoMemory>
    ensures { IfOk result (λ kept. (u : Tree) → Contains kept u ↔ Contains terms.now u) }
{
    let mut kept = Items::new(alloc);
    for t in terms {
        kept = with_term(alloc, kept, t)?;
    }
    Ok(kept)
}

/// The terms, and the term behind them where it is none of them.
fn with_term(alloc: Global, mut kept: Items<Term>, t: &Term) -> Result<Items<Term>, NoMemory>
    ensures { IfOk result (λ new. (u : Tree) → Contains new u ↔ (Contains kept u ⊎ (t.now ≡ u))) }
{
    if is_among(kept.as_slice(), t) {
        return Ok(kept);
    }
    kept.push(copy(alloc, t)?)?;
    Ok(kept)
}

/// The term is one of these. It takes no memory.
pub(crate) fn is_among(terms: &[Term], t: &Term) -> bool
    ensures { IsTrue result ↔ Contains terms.now t.now }
{
    for other in terms {
        if same_term(other, t) {
            return true;
        }
    }
    false
}
