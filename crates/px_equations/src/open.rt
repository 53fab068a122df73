//! Which clause is open to an obligation.

ghost use Rattle.std.specs.Prelude.{◌≡◌, ◌<◌, length, IfOk};
ghost use Rattle.px_terms.specs.declared.clause.Clause.{Clause as Said};
ghost use Rattle.px_terms.specs.Obligations.{IsObligation};
ghost use Rattle.px_terms.specs.Noting.{IsOpen};
ghost use Rattle.px_equations.specs.Open.{IsThatOpen, TellsFor, TellsOpen, clause_in};

use crate::known::known;
use crate::obligations::Obligations;
use px_props::{ClauseEnd, clause_of, has};
use px_terms::{Clause, Head, NoMemory, Prop, Ref};
use std::alloc::Global;

/// A clause that is open: one of the list, or one that was made.
#[derive(Drop)]
pub enum OpenClause<'a> {
    /// The clause of an obligation, lent by the list.
    Listed(&'a Clause),
    /// The clause of a property, made for the asking.
    Made(Clause),
}

/// A property of what is called, as a reference names it.
#[derive(Clone, Copy)]
struct PropertyOf {
    head: Head,
    prop: Prop,
}

impl<'a> OpenClause<'a> {
    /// The clause. It takes no memory.
    pub fn clause(&self) -> &Clause
        ensures { result.now ≡ clause_in self.now }
    {
        match self {
            OpenClause::Listed(clause) => clause,
            OpenClause::Made(clause) => clause,
        }
    }
}

/// The clause that the reference is open to in the obligation of this number, or `None` where there is none. It takes memory
/// for the clause of a property, which is made; all others are lent.
pub fn available<'t, 'p: 't>(
    alloc: Global,
    all: &'t Obligations<'p>,
    number: u32,
    reference: &Ref,
) -> Result<Option<OpenClause<'t>>, NoMemory>
    requires { number < length all.now.declared }
    ensures open { IfOk result (TellsOpen all.now number reference.now) }
    // Where a clause is open, it is that clause.
    ensures only { (own clause : Said) → IsObligation all.now number own → IsOpen all.now number own reference.now clause → IfOk result (IsThatOpen clause) }
{
    let Some(own) = all.clause(number) else {
        unreachable!()
    };
    open_in(alloc, all, number, own, *reference)
}

/// The clause that the reference is open to in the obligation of this number, whose clause is `own`. It takes memory.
fn open_in<'t, 'p: 't>(
    alloc: Global,
    all: &'t Obligations<'p>,
    number: u32,
    own: &'t Clause,
    reference: Ref,
) -> Result<Option<OpenClause<'t>>, NoMemory>
    requires { IsObligation all.now number own.now }
    ensures open { IfOk result (TellsFor all.now number own.now reference) }
    ensures only { (clause : Said) → IsOpen all.now number own.now reference clause → IfOk result (IsThatOpen clause) }
{
    match reference {
        Ref::Property { head, prop } => {
            property_in(alloc, all, number, own, PropertyOf { head, prop })
        }
        Ref::Lemma { lemma } => Ok(lemma_in(all, number, lemma)),
        Ref::Hypothesis => Ok(Some(OpenClause::Listed(own))),
    }
}

/// The clause of the lemma, where it stands below the obligation of this number. It takes no memory.
fn lemma_in<'t, 'p: 't>(all: &'t Obligations<'p>, number: u32, lemma: u32) -> Option<OpenClause<'t>>
    ensures open { (own : Said) → TellsFor all.now number own (Ref.Lemma lemma) result }
    ensures only { (own clause : Said) → IsOpen all.now number own (Ref.Lemma lemma) clause → IsThatOpen clause result }
{
    let first = all.lemma_below(number, lemma)?;
    let Some(clause) = all.clause(first) else {
        unreachable!()
    };
    Some(OpenClause::Listed(clause))
}

/// The clause of the property, where it is known of the function below the obligation of this number. It takes memory.
fn property_in<'t, 'p: 't>(
    alloc: Global,
    all: &'t Obligations<'p>,
    number: u32,
    own: &Clause,
    property: PropertyOf,
) -> Result<Option<OpenClause<'t>>, NoMemory>
    requires { IsObligation all.now number own.now }
    ensures open { IfOk result (TellsFor all.now number own.now (Ref.Property property.head property.prop)) }
    ensures only { (clause : Said) → IsOpen all.now number own.now (Ref.Property property.head property.prop) clause → IfOk result (IsThatOpen clause) }
{
    let PropertyOf { head, prop } = property;
    let funs = own.funs.as_slice();
    let program = all.checked().program();
    if !has(known(all, number, funs, head), prop) {
        return Ok(None);
    }
    match clause_of(alloc, program, head, funs, prop) {
        Ok(clause) => Ok(Some(OpenClause::Made(clause))),
        Err(ClauseEnd::Shape) => Ok(None),
        Err(ClauseEnd::NoMemory) => Err(NoMemory),
    }
}
