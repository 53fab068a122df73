//! The rules of evaluation: one function each. `fuel` goes down wherever the value of a term is begun.

ghost use Rattle.std.specs.Prelude.{◌≡◌, ◌↔◌, ◌+◌, ℕ, List, None, Some, IfOk};
ghost use Rattle.px_terms.specs.declared.types.Ty.{Ty};
ghost use Rattle.px_terms.specs.declared.types.Fun.{Fun as AnyFun};
ghost use Rattle.px_terms.specs.declared.term.Term.TheOpen.{Term-F};
ghost use Rattle.px_terms.specs.Meaning.{FunMeans, FunsMean};
ghost use Rattle.px_evaluate.specs.declared.values.Evaluated.{Evaluated as AnyEvaluated};
ghost use Rattle.px_evaluate.specs.Evaluating.{IsEvaluated};
ghost use Rattle.px_evaluate.specs.Finding.{AreFoundIn, Finds, IsFoundIn, IsGiven, IsValueIn};

use crate::functions::{at_most, callee_of, equal};
use crate::scope::{Callee, Scope};
use crate::values::{
    AllEvaluated, Evaluated, arm_of, at_hand, bound_by, constructed, nearest, variable, with_calls,
};
use px_terms::{Head, NoMemory, Program, Term, Value};
use sqlite_items::{Items, at};
use std::alloc::Global;

/// What a closed term, or a term at these values of its free variables, means in the program: its value, and
/// the number of calls that it takes. It is found exactly where the term has a meaning whose terms nest at most
/// `fuel` deep, and whose calls are at most 2^64 - 1. None otherwise: the term nests deeper, or takes more calls,
/// or has no meaning at all, since a variable or a called definition is missing, or a match has no arm for its
/// value. It takes memory, and fails only where there is none; its calls nest as deep as evaluation does.
pub fn evaluate(
    alloc: Global,
    program: &Program,
    fuel: u32,
    values: &[Value],
    term: &Term,
) -> Result<Option<Evaluated>, NoMemory>
    ensures finds { IfOk result (λ found. (e : AnyEvaluated) → ((found ≡ Some e) ↔ IsEvaluated fuel program.now values.now term.now e)) }
    ensures nothing { IfOk result (λ found. (found ≡ None) ↔ ((e : AnyEvaluated) → ¬ IsEvaluated fuel program.now values.now term.now e)) }
{
    let types = Items::new(alloc);
    let funs = Items::new(alloc);
    let inner = Items::new(alloc);
    let scope = Scope {
        program,
        types: types.as_slice(),
        funs: funs.as_slice(),
        values,
        inner: inner.as_slice(),
    };
    value_of(alloc, &scope, fuel, term)
}

/// The value of a term, by the rule for its outermost part.
#[cycle(evaluate)]
fn value_of(
    alloc: Global,
    scope: &Scope<'_>,
    fuel: u32,
    term: &Term,
) -> Result<Option<Evaluated>, NoMemory>
    ensures { IfOk result (λ found. Finds found (IsValueIn scope.now fuel term.now)) }
{
    let Some(less) = fuel.checked_sub(1) else {
        return Ok(None);
    };
    match term {
        Term::Free(number) => at_hand(alloc, variable(scope.values, *number)),
        Term::Bound(number) => at_hand(alloc, nearest(scope.inner, *number)),
        Term::Lit(word) => Ok(Some(Evaluated {
            value: Value::Lit(*word),
            calls: 0,
        })),
        Term::Con {
            datatype,
            con,
            fields,
            ..
        } => {
            let found = all_values(alloc, scope, less, fields.as_slice())?;
            Ok(constructed(*datatype, *con, found))
        }
        Term::Call { fun, funs, args } => {
            let Some(callee) = callee_of(alloc, scope, fun, funs.as_slice())? else {
                return Ok(None);
            };
            called(alloc, scope, less, &callee, args.as_slice())
        }
        Term::Match { on, arms, .. } => matched(alloc, scope, less, on.get(), arms.as_slice()),
    }
}

/// The value of a match: that of the arm that the scrutinee's value chooses.
#[cycle(evaluate)]
fn matched(
    alloc: Global,
    scope: &Scope<'_>,
    fuel: u32,
    on: &Term,
    arms: &[Term],
) -> Result<Option<Evaluated>, NoMemory>
    ensures { (d : ℕ) → (types : List Ty) → IfOk result (λ found. Finds found (IsFoundIn scope.now (fuel + 1) (Term-F.Match on.now d types arms.now))) }
{
    let Some(scrutinee) = value_of(alloc, scope, fuel, on)? else {
        return Ok(None);
    };
    let Value::Con { con, fields, .. } = &scrutinee.value else {
        return Ok(None);
    };
    let Some(arm) = arm_of(arms, *con) else {
        return Ok(None);
    };
    let inner = bound_by(alloc, scope.inner, fields.as_slice())?;
    let inside = Scope {
        program: scope.program,
        types: scope.types,
        funs: scope.funs,
        values: scope.values,
        inner: inner.as_slice(),
    };
    let Some(found) = value_of(alloc, &inside, fuel, arm)? else {
        return Ok(None);
    };
    Ok(with_calls(found, scrutinee.calls))
}

/// The value of a call: what the function gives on the values of the arguments.
#[cycle(evaluate)]
fn called(
    alloc: Global,
    scope: &Scope<'_>,
    fuel: u32,
    callee: &Callee,
    args: &[Term],
) -> Result<Option<Evaluated>, NoMemory>
    ensures { (f : AnyFun) → (fs : List AnyFun) → FunMeans scope.now.types.now scope.now.funs.now f callee.now.fun → FunsMean scope.now.types.now scope.now.funs.now fs callee.now.funs → IfOk result (λ found. Finds found (IsFoundIn scope.now (fuel + 1) (Term-F.Call f fs args.now))) }
{
    let Some(inputs) = all_values(alloc, scope, fuel, args)? else {
        return Ok(None);
    };
    let Some(found) = given(alloc, scope.program, fuel, callee, inputs.values.as_slice())? else {
        return Ok(None);
    };
    Ok(with_calls(found, inputs.calls))
}

/// What the function gives on these values: a definition the value of its body, with one more call, and a
/// built-in a truth value, with none.
#[cycle(evaluate)]
fn given(
    alloc: Global,
    program: &Program,
    fuel: u32,
    callee: &Callee,
    inputs: &[Value],
) -> Result<Option<Evaluated>, NoMemory>
    ensures { IfOk result (λ found. Finds found (IsGiven fuel program.now callee.now inputs.now)) }
{
    let inner = Items::new(alloc);
    let scope = Scope {
        program,
        types: callee.fun.types.as_slice(),
        funs: callee.funs.as_slice(),
        values: inputs,
        inner: inner.as_slice(),
    };
    match callee.fun.head {
        Head::Def(number) => {
            let Some(def) = at(program.defs.as_slice(), number as usize) else {
                return Ok(None);
            };
            let Some(found) = value_of(alloc, &scope, fuel, &def.body)? else {
                return Ok(None);
            };
            Ok(with_calls(found, 1))
        }
        Head::Wle => Ok(at_most(alloc, inputs)),
        Head::Weq => Ok(equal(alloc, inputs)),
        Head::FnVar(_) => Ok(None),
    }
}

/// The values of the terms in order; None where one of them has none.
#[cycle(evaluate)]
fn all_values(
    alloc: Global,
    scope: &Scope<'_>,
    fuel: u32,
    terms: &[Term],
) -> Result<Option<AllEvaluated>, NoMemory>
    ensures { IfOk result (λ found. Finds found (AreFoundIn scope.now fuel terms.now)) }
{
    let mut found = Items::new(alloc);
    let mut calls: u64 = 0;
    for t in terms {
        let Some(one) = value_of(alloc, scope, fuel, t)? else {
            return Ok(None);
        };
        let Some(sum) = calls.checked_add(one.calls) else {
            return Ok(None);
        };
        found.push(one.value)?;
        calls = sum;
    }
    Ok(Some(AllEvaluated {
        values: found,
        calls,
    }))
}
