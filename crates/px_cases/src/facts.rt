//! What a fact with constructors or literals on both sides gives.
ghost use Rattle.std.specs.Prelude.{◌≡◌, ◌≢◌, ◌↔◌, ◌++◌, List, IfErr, IfOk, MatchOption, MatchResult, Err, IsTrue, IsSome, None, OnOk, Some, slice_get};
ghost use Rattle.px_terms.specs.declared.term.Term.{Term as Tree};
ghost use Rattle.px_terms.specs.declared.clause.Equation.{Equation as Fact};
ghost use Rattle.px_terms.specs.declared.sequent.Sequent.{Sequent as Child};
ghost use Rattle.px_terms.specs.Sequents.{IsWithinLimits};
ghost use Rattle.px_terms.specs.Rows.{HaveOneHead, HeadsClash, IsInjected, pairs_equal, with_facts};
ghost use Rattle.px_cases.specs.Ends.{IsAdded, IsUneven};

use crate::ends::{NoSuchFact, SplitEnd};
use crate::small::is_within_limits;
use px_terms::{Equation, EquationList, NoMemory, Sequent, Term, copy, copy_equation};
use sqlite_items::{Items, at};
use std::alloc::Global;

/// The sequent with the fields of the fact's two sides equal, as new last facts, where both sides are one constructor.
/// NoSuchFact exactly where the number is no fact's; NotSameHead exactly where the sides are not one constructor; Oversize
/// exactly where the child would be over the limits. It takes the sequent, and memory for a copy of the fact and of its fields.
pub fn inject(alloc: Global, sequent: Sequent, fact: u32) -> Result<Sequent, SplitEnd>
    ensures ok { IfOk result (λ child. IsInjected sequent fact child × IsWithinLimits child) }
    // Where there is a child within the limits, it is the answer, besides want of memory.
    ensures only { (child : Child) → IsInjected sequent fact child → IsWithinLimits child → MatchResult result (λ found. found ≡ child) (λ end. end ≡ SplitEnd.NoMemory) }
    ensures no_such_fact { result ≡ Err SplitEnd.NoSuchFact → slice_get sequent.facts fact ≡ None }
    ensures not_same_head { result ≡ Err SplitEnd.NotSameHead → IsSome (slice_get sequent.facts fact) × ((child : Child) → ¬ IsInjected sequent fact child) }
    ensures oversize { result ≡ Err SplitEnd.Oversize → (child : Child) × IsInjected sequent fact child × ¬ IsWithinLimits child }
    ensures no_other { (result ≢ Err SplitEnd.NotData) × (result ≢ Err SplitEnd.IllTyped) }
{
    let Some(equation) = at(sequent.facts.as_slice(), fact as usize) else {
        return Err(SplitEnd::NoSuchFact);
    };
    let sides = copy_equation(alloc, equation)?;
    with_fields(alloc, sequent, &sides)
}

/// The sequent with the fields of the two sides equal, as new last facts, where both sides are one constructor. It takes memory
/// for the copies of the fields.
fn with_fields(alloc: Global, sequent: Sequent, sides: &Equation) -> Result<Sequent, SplitEnd>
    ensures ok { IfOk result (λ child. IsAdded sequent sides.now child × IsWithinLimits child) }
    ensures end { IfErr result (IsUneven sequent sides.now) }
{
    let Some(heads) = one_head(&sides.left, &sides.right) else {
        return Err(SplitEnd::NotSameHead);
    };
    let child = with_pairs(
        alloc,
        sequent,
        heads.fields.as_slice(),
        heads.parts.as_slice(),
    )?;
    if is_within_limits(&child) {
        Ok(child)
    } else {
        Err(SplitEnd::Oversize)
    }
}

/// The fields of two terms that are one constructor.
#[derive(Clone, Copy)]
pub struct SideFields<'a> {
    /// The fields of the one.
    pub fields: &'a Items<Term>,
    /// The fields of the other.
    pub parts: &'a Items<Term>,
}

/// The fields of both terms; None exactly where they are not one constructor. It takes no memory.
pub fn one_head<'a>(left: &'a Term, right: &'a Term) -> Option<SideFields<'a>>
    ensures { MatchOption result ((fields : List Tree) (parts : List Tree) → ¬ HaveOneHead left.now right.now fields parts) (λ heads. HaveOneHead left.now right.now heads.fields.now heads.parts.now) }
{
    let Term::Con {
        datatype,
        con,
        fields,
        ..
    } = left
    else {
        return None;
    };
    let Term::Con {
        datatype: other_datatype,
        con: other_con,
        fields: parts,
        ..
    } = right
    else {
        return None;
    };
    if *datatype != *other_datatype || *con != *other_con {
        return None;
    }
    Some(SideFields { fields, parts })
}

/// The sequent with the terms in pairs, as new last facts. It takes memory, and fails only where there is none.
fn with_pairs(
    alloc: Global,
    sequent: Sequent,
    fields: &[Term],
    parts: &[Term],
) -> Result<Sequent, NoMemory>
    ensures { IfOk result (λ child. child ≡ with_facts sequent (pairs_equal fields.now parts.now)) }
{
    let mut child = sequent;
    push_pairs(alloc, &mut child.facts, fields, parts)?;
    Ok(child)
}

/// Adds the terms in pairs, as equations, at the end. It takes memory, and fails only where there is none.
fn push_pairs(
    alloc: Global,
    facts: &mut EquationList,
    fields: &[Term],
    parts: &[Term],
) -> Result<(), NoMemory>
    ensures { OnOk result (facts.new ≡ facts.old ++ pairs_equal fields.now parts.now) }
{
    let count = fields.len().min(parts.len());
    for place in 0..count {
        facts.push(Equation {
            left: copy(alloc, &fields[place])?,
            right: copy(alloc, &parts[place])?,
        })?;
    }
    Ok(())
}

/// Whether the fact's heads are distinct constructors or distinct literals; NoSuchFact exactly where the number is no
/// fact's. It takes no memory.
pub fn clashes(sequent: &Sequent, fact: u32) -> Result<bool, NoSuchFact>
    ensures { MatchResult result (λ clash. (e : Fact) × (slice_get sequent.now.facts fact ≡ Some e) × (IsTrue clash ↔ HeadsClash e.left e.right)) (λ _. slice_get sequent.now.facts fact ≡ None) }
{
    match at(sequent.facts.as_slice(), fact as usize) {
        Some(equation) => Ok(heads_clash(&equation.left, &equation.right)),
        None => Err(NoSuchFact),
    }
}

/// Whether the heads are distinct constructors or distinct literals. It takes no memory.
fn heads_clash(left: &Term, right: &Term) -> bool
    ensures { IsTrue result ↔ HeadsClash left.now right.now }
{
    match (left, right) {
        (
            Term::Con { datatype, con, .. },
            Term::Con {
                datatype: other_datatype,
                con: other_con,
                ..
            },
        ) => datatype != other_datatype || con != other_con,
        (Term::Lit(word), Term::Lit(other)) => word != other,
        _ => false,
    }
}
