//! The cases of a term.
ghost use Rattle.std.specs.Prelude.{◌≡◌, ◌≢◌, ◌⊎◌, ◌+◌, ◌<◌, ◌^◌, ◌++◌, [], ◌∷◌, List, IfErr, IfOk, MatchResult, Err, All, length};
ghost use Rattle.px_terms.specs.declared.types.Ty.{Ty as Kind};
ghost use Rattle.px_terms.specs.declared.term.Term.{out-Term};
ghost use Rattle.px_terms.specs.declared.sequent.Sequent.{Sequent as Child};
ghost use Rattle.px_terms.specs.Types.{tys_instance};
ghost use Rattle.px_terms.specs.Typing.{HasType, anywhere, live};
ghost use Rattle.px_terms.specs.Sequents.{IsWithinLimits};
ghost use Rattle.px_terms.specs.Rows.{AreTermCases, IsMatchFree, split_of, splits_from};
ghost use Rattle.px_cases.specs.Ends.{IsOversized};

use crate::copies::copy_sequent;
use crate::ends::SplitEnd;
use crate::match_free::is_match_free;
use crate::shapes::{
    Data, Shape, data_of, on_fresh_variables, push_fields, room_for_fields, shape_at,
};
use crate::small::is_within_limits;
use px_descent::Checked;
use px_terms::{Equation, NoMemory, Sequent, Term, copy};
use px_types::{type_of, typed_have_constructors};
use sqlite_items::Items;
use std::alloc::Global;

/// The cases of the term, a sequent for each constructor in order, with a new last fact that the term is that constructor.
/// NotData exactly where the term has a match, or has a type that is no datatype of the program; IllTyped exactly where it
/// has no match and no type; Oversize exactly where a child would be over the limits. It takes the sequent, which becomes the
/// last child, and memory for the copies that the other children are.
pub fn split_term(
    alloc: Global,
    checked: &Checked,
    sequent: Sequent,
    term: &Term,
) -> Result<Items<Sequent>, SplitEnd>
    ensures ok { IfOk result (λ children. AreTermCases checked.now sequent term.now children × All IsWithinLimits children) }
    // Where there are cases within the limits, they are the answer, besides want of memory.
    ensures only { (children : List Child) → AreTermCases checked.now sequent term.now children → All IsWithinLimits children → MatchResult result (λ found. found ≡ children) (λ end. end ≡ SplitEnd.NoMemory) }
    ensures not_data { result ≡ Err SplitEnd.NotData → (¬ IsMatchFree (out-Term term.now)) ⊎ ((T : Kind) × HasType checked.now anywhere sequent.context term.now T × ((children : List Child) → ¬ AreTermCases checked.now sequent term.now children)) }
    ensures ill_typed { result ≡ Err SplitEnd.IllTyped → IsMatchFree (out-Term term.now) × ((T : Kind) → ¬ HasType checked.now anywhere sequent.context term.now T) }
    ensures oversize { result ≡ Err SplitEnd.Oversize → (children : List Child) × AreTermCases checked.now sequent term.now children × ¬ All IsWithinLimits children }
    ensures no_other { (result ≢ Err SplitEnd.NoSuchFact) × (result ≢ Err SplitEnd.NotSameHead) }
{
    if !is_match_free(term) {
        return Err(SplitEnd::NotData);
    }
    typed_have_constructors();
    let ty = type_of(alloc, checked.program(), &sequent.context, term)?;
    let Some(family) = data_of(checked.program(), &ty) else {
        return Err(SplitEnd::NotData);
    };
    splits(alloc, sequent, term, &family)
}

/// A sequent for each constructor of the datatype, in order, each within the limits. The sequent becomes the last one.
fn splits(
    alloc: Global,
    sequent: Sequent,
    term: &Term,
    family: &Data,
) -> Result<Items<Sequent>, SplitEnd>
    requires some { 0 < length family.now.declaration.now.cons }
    requires few { length family.now.declaration.now.cons < 2 ^ 32 }
    ensures splits { IfOk result (λ children. children ≡ splits_from sequent term.now family.now.number family.now.args.now 0 family.now.declaration.now.cons) }
    ensures small { IfOk result (All IsWithinLimits) }
    ensures end { IfErr result (IsOversized (All IsWithinLimits (splits_from sequent term.now family.now.number family.now.args.now 0 family.now.declaration.now.cons))) }
{
    let last = family.declaration.cons.len() - 1;
    let mut children = Items::new(alloc);
    for place in 0..last {
        let shape = shape_at(family, place);
        let copied = copy_sequent(alloc, &sequent)?;
        let child = split(alloc, copied, term, &shape)?;
        children.push(child)?;
    }
    let final_shape = shape_at(family, last);
    let final_child = split(alloc, sequent, term, &final_shape)?;
    children.push(final_child)?;
    Ok(children)
}

/// The sequent with a new last fact that the term is this constructor on fresh variables.
fn split(alloc: Global, sequent: Sequent, term: &Term, shape: &Shape) -> Result<Sequent, SplitEnd>
    ensures split { IfOk result (λ child. child ≡ split_of sequent term.now shape.now.datatype shape.now.args.now shape.now.con shape.now.constructor.now) }
    ensures small { IfOk result IsWithinLimits }
    ensures end { IfErr result (IsOversized (IsWithinLimits (split_of sequent term.now shape.now.datatype shape.now.args.now shape.now.con shape.now.constructor.now))) }
{
    let Some(fresh) = room_for_fields(sequent.next, shape) else {
        return Err(SplitEnd::Oversize);
    };
    let right = on_fresh_variables(alloc, sequent.next, fresh, shape)?;
    let left = copy(alloc, term)?;
    let child = with_fact(alloc, sequent, Equation { left, right }, shape, fresh)?;
    if is_within_limits(&child) {
        Ok(child)
    } else {
        Err(SplitEnd::Oversize)
    }
}

/// The sequent with the constructor's fields as so many fresh variables, and a new last fact.
fn with_fact(
    alloc: Global,
    sequent: Sequent,
    fact: Equation,
    shape: &Shape,
    fresh: u32,
) -> Result<Sequent, NoMemory>
    requires { sequent.next + fresh < 2 ^ 32 }
    ensures { IfOk result (λ child. child ≡ record { context = record { tparams = sequent.context.tparams; funs = sequent.context.funs; vars = sequent.context.vars ++ live (tys_instance shape.now.args.now shape.now.constructor.now.fields) }; frame = sequent.frame; facts = sequent.facts ++ fact ∷ []; alternatives = sequent.alternatives; next = sequent.next + fresh }) }
{
    let mut child = sequent;
    push_fields(alloc, &mut child.context.vars, shape)?;
    child.facts.push(fact)?;
    child.next += fresh;
    Ok(child)
}
