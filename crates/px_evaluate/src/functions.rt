//! What a call's function and its function arguments stand for, and what the built-ins give.

ghost use Rattle.std.specs.Prelude.{◌≡◌, ℕ, IfOk};
ghost use Rattle.px_terms.specs.Head.TheVariants.{Weq, Wle};
ghost use Rattle.px_terms.specs.declared.program.Program.{Program as AnyProgram};
ghost use Rattle.px_terms.specs.Meaning.{FunsMean, meant_function, truth as truth_value};
ghost use Rattle.px_terms.specs.Types.{fun_with_types};
ghost use Rattle.px_evaluate.specs.declared.scope.Callee.{Callee as AnyCallee};
ghost use Rattle.px_evaluate.specs.Finding.{AreWords, Finds, IsCallee, IsGiven};

use crate::scope::{Callee, Scope};
use crate::values::Evaluated;
use px_terms::{Fun, Head, NoMemory, Ty, Value, copy_fun, instance_of_tys};
use sqlite_items::{Items, at};
use std::alloc::Global;

/// The function with these types put in for its type variables, and its head.
fn with_types(alloc: Global, fun: &Fun, types: &[Ty]) -> Result<Fun, NoMemory>
    ensures { IfOk result (λ r. r ≡ fun_with_types types.now fun.now) }
{
    Ok(Fun {
        head: fun.head,
        types: instance_of_tys(alloc, fun.types.as_slice(), types)?,
    })
}

/// What the function stands for in this scope; None where it is a variable that stands for nothing.
fn meant(alloc: Global, scope: &Scope<'_>, fun: &Fun) -> Result<Option<Fun>, NoMemory>
    ensures { IfOk result (λ found. found ≡ meant_function scope.now.types.now scope.now.funs.now fun.now fun.now.head) }
{
    match fun.head {
        Head::FnVar(number) => {
            let Some(other) = at(scope.funs, number as usize) else {
                return Ok(None);
            };
            Ok(Some(copy_fun(alloc, other)?))
        }
        Head::Def(_) | Head::Wle | Head::Weq => Ok(Some(with_types(alloc, fun, scope.types)?)),
    }
}

/// What the functions stand for in this scope, in order; None where one of them stands for nothing.
fn all_meant(alloc: Global, scope: &Scope<'_>, funs: &[Fun]) -> Result<Option<Items<Fun>>, NoMemory>
    ensures { IfOk result (λ found. Finds found (FunsMean scope.now.types.now scope.now.funs.now funs.now)) }
{
    let mut found = Items::new(alloc);
    for fun in funs {
        let Some(one) = meant(alloc, scope, fun)? else {
            return Ok(None);
        };
        found.push(one)?;
    }
    Ok(Some(found))
}

/// What the function of a call and its function arguments stand for in this scope; None where one of them
/// stands for nothing.
pub(crate) fn callee_of(
    alloc: Global,
    scope: &Scope<'_>,
    fun: &Fun,
    funs: &[Fun],
) -> Result<Option<Callee>, NoMemory>
    ensures { IfOk result (λ found. Finds found (IsCallee scope.now fun.now funs.now)) }
{
    let Some(fun) = meant(alloc, scope, fun)? else {
        return Ok(None);
    };
    let Some(funs) = all_meant(alloc, scope, funs)? else {
        return Ok(None);
    };
    Ok(Some(Callee { fun, funs }))
}

/// The two words that these values are; None where they are anything else.
fn two_words(inputs: &[Value]) -> Option<(u64, u64)>
    ensures { Finds result (AreWords inputs.now) }
{
    let [left, right] = inputs else {
        return None;
    };
    let Value::Lit(left) = left else {
        return None;
    };
    let Value::Lit(right) = right else {
        return None;
    };
    Some((*left, *right))
}

/// `True` or `False`, which a built-in gives without a call.
fn truth(alloc: Global, holds: bool) -> Evaluated
    ensures value { result.value ≡ truth_value holds }
    ensures calls { result.calls ≡ 0 }
{
    Evaluated {
        value: Value::Con {
            datatype: 0,
            con: u32::from(holds),
            fields: Items::new(alloc),
        },
        calls: 0,
    }
}

/// Whether the first of two words is at most the second; None where the values are not two words.
pub(crate) fn at_most(alloc: Global, inputs: &[Value]) -> Option<Evaluated>
    ensures { (n : ℕ) → (P : AnyProgram) → (f : AnyCallee) → f.fun.head ≡ Wle → Finds result (IsGiven n P f inputs.now) }
{
    let (left, right) = two_words(inputs)?;
    Some(truth(alloc, left <= right))
}

/// Whether two words are equal; None where the values are not two words.
pub(crate) fn equal(alloc: Global, inputs: &[Value]) -> Option<Evaluated>
    ensures { (n : ℕ) → (P : AnyProgram) → (f : AnyCallee) → f.fun.head ≡ Weq → Finds result (IsGiven n P f inputs.now) }
{
    let (left, right) = two_words(inputs)?;
    Some(truth(alloc, left == right))
}
