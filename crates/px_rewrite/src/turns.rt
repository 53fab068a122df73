//! What a part of a term becomes by a step.

ghost use Rattle.std.specs.Prelude.{◌≡◌, ◌≤◌, ℕ, IfOk, IfNone, IfSome, IsOkUnless, List};
ghost use Rattle.px_terms.specs.declared.term.Term.{Term as Tree};
ghost use Rattle.px_terms.specs.declared.clause.Equation.{Equation as Fact};
ghost use Rattle.px_terms.specs.declared.program.Program.{Program as AnyProgram};
ghost use Rattle.px_terms.specs.Terms.{term_size};
ghost use Rattle.px_terms.specs.Steps.{Turns, truth_term};
ghost use Rattle.px_rewrite.specs.Comparing.{AreLiterals};

use crate::arm_sizes::size_of_arm;
use crate::arms::open_arm;
use crate::steps::StepEnd;
use px_terms::{
    Equation, Head, Kind, Program, Sigma, Term, copy, copy_funs, copy_terms, copy_tys, instance,
    same_term, size, size_of_instance,
};
use sqlite_items::{Items, at};
use std::alloc::Global;

/// What the part becomes by a step of this kind. NoStep where it becomes nothing, or, before that is built, something with more
/// nodes than there is room for.
pub(crate) fn turned(
    alloc: Global,
    program: &Program,
    facts: &[Equation],
    part: &Term,
    kind: Kind,
    room: u64,
) -> Result<Term, StepEnd>
    ensures turns { IfOk result (λ t. Turns program.now facts.now kind part.now t) }
    ensures only { (t : Tree) → Turns program.now facts.now kind part.now t → term_size t ≤ room → IsOkUnless result StepEnd.NoMemory }
{
    match kind {
        Kind::Unfold => unfolded(alloc, program, part, room),
        Kind::Select => selected(alloc, program, part, room),
        Kind::Compare => compared(alloc, part),
        Kind::Fact {
            number,
            left_to_right,
        } => {
            let Some(fact) = at(facts, number as usize) else {
                return Err(StepEnd::NoStep);
            };
            if left_to_right {
                rewritten(alloc, part, &fact.left, &fact.right, room)
            } else {
                rewritten(alloc, part, &fact.right, &fact.left, room)
            }
        }
    }
}

/// The body of the definition that the part calls, with the types, functions and arguments put in.
fn unfolded(alloc: Global, program: &Program, part: &Term, room: u64) -> Result<Term, StepEnd>
    ensures turns { (facts : List Fact) → IfOk result (λ t. Turns program.now facts Kind.Unfold part.now t) }
    ensures only { (facts : List Fact) (t : Tree) → Turns program.now facts Kind.Unfold part.now t → term_size t ≤ room → IsOkUnless result StepEnd.NoMemory }
{
    let Term::Call { fun, funs, args } = part else {
        return Err(StepEnd::NoStep);
    };
    let Head::Def(number) = fun.head else {
        return Err(StepEnd::NoStep);
    };
    let Some(def) = at(program.defs.as_slice(), number as usize) else {
        return Err(StepEnd::NoStep);
    };
    let sigma = Sigma {
        types: copy_tys(alloc, fun.types.as_slice())?,
        funs: copy_funs(alloc, funs.as_slice())?,
        terms: copy_terms(alloc, args.as_slice())?,
    };
    if size_of_instance(&def.body, &sigma) > room {
        return Err(StepEnd::NoStep);
    }
    Ok(instance(alloc, &def.body, &sigma)?)
}

/// The arm that the part, a match on a constructor, takes, with the fields put in.
fn selected(alloc: Global, program: &Program, part: &Term, room: u64) -> Result<Term, StepEnd>
    ensures turns { (facts : List Fact) → IfOk result (λ t. Turns program.now facts Kind.Select part.now t) }
    ensures only { (facts : List Fact) (t : Tree) → Turns program.now facts Kind.Select part.now t → term_size t ≤ room → IsOkUnless result StepEnd.NoMemory }
{
    let Term::Match { on, arms, .. } = part else {
        return Err(StepEnd::NoStep);
    };
    let Term::Con { con, fields, .. } = on.get() else {
        return Err(StepEnd::NoStep);
    };
    let Some(arm) = at(arms.as_slice(), *con as usize) else {
        return Err(StepEnd::NoStep);
    };
    if size_of_arm(program, fields.as_slice(), arm) > room {
        return Err(StepEnd::NoStep);
    }
    Ok(open_arm(alloc, program, fields.as_slice(), arm)?)
}

/// The truth of the part, a comparison of two literals.
fn compared(alloc: Global, part: &Term) -> Result<Term, StepEnd>
    ensures turns { (P : AnyProgram) (facts : List Fact) → IfOk result (λ t. Turns P facts Kind.Compare part.now t) }
    ensures only { (P : AnyProgram) (facts : List Fact) (t : Tree) → Turns P facts Kind.Compare part.now t → IsOkUnless result StepEnd.NoMemory }
{
    let Term::Call { fun, args, .. } = part else {
        return Err(StepEnd::NoStep);
    };
    let Some((first, second)) = two_literals(args.as_slice()) else {
        return Err(StepEnd::NoStep);
    };
    match fun.head {
        Head::Wle => Ok(truth(alloc, first <= second)),
        Head::Weq => Ok(truth(alloc, first == second)),
        Head::Def(_) | Head::FnVar(_) => Err(StepEnd::NoStep),
    }
}

/// The two literals, where the arguments are two literals.
fn two_literals(args: &[Term]) -> Option<(u64, u64)>
    ensures some { IfSome result (λ words. AreLiterals args.now words.0 words.1) }
    ensures none { IfNone result ((x y : ℕ) → ¬ AreLiterals args.now x y) }
{
    let [first, second] = args else {
        return None;
    };
    let Term::Lit(first) = first else {
        return None;
    };
    let Term::Lit(second) = second else {
        return None;
    };
    Some((*first, *second))
}

/// The constructor `True` where it holds, else `False`.
fn truth(alloc: Global, holds: bool) -> Term
    ensures { result ≡ truth_term holds }
{
    Term::Con {
        datatype: 0,
        con: if holds { 1 } else { 0 },
        types: Items::new(alloc),
        fields: Items::new(alloc),
    }
}

/// The side `to` of a fact, where the part is its other side.
fn rewritten(alloc: Global, part: &Term, from: &Term, to: &Term, room: u64) -> Result<Term, StepEnd>
    ensures turns { IfOk result (λ t. (part.now ≡ from.now) × (t ≡ to.now)) }
    ensures only { part.now ≡ from.now → term_size to.now ≤ room → IsOkUnless result StepEnd.NoMemory }
{
    if !same_term(part, from) || size(to) > room {
        return Err(StepEnd::NoStep);
    }
    Ok(copy(alloc, to)?)
}
