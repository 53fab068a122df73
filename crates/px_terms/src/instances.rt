ghost use Rattle.std.specs.Prelude.{◌≡◌, map, IfOk};
ghost use Rattle.px_terms.specs.Types.{fun_instance, fun_with_types, ty_instance, tys_instance};
ghost use Rattle.px_terms.specs.Terms.{term_instance};

use crate::clause::Sigma;
use crate::copying::{copy, copy_fun, copy_ty, room_for};
use crate::term::Term;
use crate::types::{Fun, Ty};
use px_base::{Head, NoMemory};
use sqlite_items::{Boxed, Items, at};
use std::alloc::Global;

/// The type with these types put in for its type variables, by their numbers: a variable whose number is out
/// of range stays. It takes memory, and fails only where there is none.
#[cycle(instance_of_ty)]
pub fn instance_of_ty(alloc: Global, ty: &Ty, types: &[Ty]) -> Result<Ty, NoMemory>
    ensures { IfOk result (λ r. r ≡ ty_instance types.now ty.now) }
{
    match ty {
        Ty::Word => Ok(Ty::Word),
        Ty::Var(number) => match at(types, *number as usize) {
            Some(ty) => copy_ty(alloc, ty),
            None => Ok(Ty::Var(*number)),
        },
        Ty::Con { datatype, args } => Ok(Ty::Con {
            datatype: *datatype,
            args: instance_of_tys(alloc, args.as_slice(), types)?,
        }),
    }
}

/// Each type with these types put in for its type variables. It takes memory, and fails only where there is
/// none.
#[cycle(instance_of_ty)]
pub fn instance_of_tys(alloc: Global, tys: &[Ty], types: &[Ty]) -> Result<Items<Ty>, NoMemory>
    ensures { IfOk result (λ r. r ≡ tys_instance types.now tys.now) }
{
    let mut done = room_for(alloc, tys.len())?;
    for ty in tys {
        done.push(instance_of_ty(alloc, ty, types)?)?;
    }
    Ok(done)
}

/// The function with the types of `sigma` put in for its type variables. A function variable is replaced by
/// the function of its number, where there is one. It takes memory, and fails only where there is none.
pub fn instance_of_fun(alloc: Global, fun: &Fun, sigma: &Sigma) -> Result<Fun, NoMemory>
    ensures { IfOk result (λ r. r ≡ fun_instance sigma.now.types sigma.now.funs fun.now) }
{
    match fun.head {
        Head::FnVar(number) => match at(sigma.funs.as_slice(), number as usize) {
            Some(other) => copy_fun(alloc, other),
            None => with_types(alloc, fun, sigma.types.as_slice()),
        },
        Head::Def(_) | Head::Wle | Head::Weq => with_types(alloc, fun, sigma.types.as_slice()),
    }
}

/// The function with these types put in for its type variables, and its head.
fn with_types(alloc: Global, fun: &Fun, types: &[Ty]) -> Result<Fun, NoMemory>
    ensures { IfOk result (λ r. r ≡ fun_with_types types.now fun.now) }
{
    Ok(Fun {
        head: fun.head,
        types: instance_of_tys(alloc, fun.types.as_slice(), types)?,
    })
}

/// Each function with the types and functions of `sigma` put in for its variables. It takes memory, and fails
/// only where there is none.
pub fn instance_of_funs(alloc: Global, funs: &[Fun], sigma: &Sigma) -> Result<Items<Fun>, NoMemory>
    ensures { IfOk result (λ r. r ≡ map (fun_instance sigma.now.types sigma.now.funs) funs.now) }
{
    let mut done = Items::new(alloc);
    for fun in funs {
        done.push(instance_of_fun(alloc, fun, sigma)?)?;
    }
    Ok(done)
}

/// The term with what `sigma` has put in for its type, function and free variables, by their numbers: a
/// variable whose number is out of range stays. It takes memory, and fails only where there is none; its
/// calls nest as deep as the term.
#[cycle(instance)]
pub fn instance(alloc: Global, t: &Term, sigma: &Sigma) -> Result<Term, NoMemory>
    ensures { IfOk result (λ r. r ≡ term_instance sigma.now t.now) }
{
    match t {
        Term::Free(number) => match at(sigma.terms.as_slice(), *number as usize) {
            Some(by) => copy(alloc, by),
            None => Ok(Term::Free(*number)),
        },
        Term::Bound(number) => Ok(Term::Bound(*number)),
        Term::Lit(word) => Ok(Term::Lit(*word)),
        Term::Con {
            datatype,
            con,
            types,
            fields,
        } => Ok(Term::Con {
            datatype: *datatype,
            con: *con,
            types: instance_of_tys(alloc, types.as_slice(), sigma.types.as_slice())?,
            fields: instance_of_terms(alloc, fields.as_slice(), sigma)?,
        }),
        Term::Call { fun, funs, args } => Ok(Term::Call {
            fun: instance_of_fun(alloc, fun, sigma)?,
            funs: instance_of_funs(alloc, funs.as_slice(), sigma)?,
            args: instance_of_terms(alloc, args.as_slice(), sigma)?,
        }),
        Term::Match {
            on,
            datatype,
            types,
            arms,
        } => Ok(Term::Match {
            on: Boxed::new(alloc, instance(alloc, on.get(), sigma)?)?,
            datatype: *datatype,
            types: instance_of_tys(alloc, types.as_slice(), sigma.types.as_slice())?,
            arms: instance_of_terms(alloc, arms.as_slice(), sigma)?,
        }),
    }
}

/// Each term with what `sigma` has put in for its variables. It takes memory, and fails only where there is
/// none.
#[cycle(instance)]
pub fn instance_of_terms(
    alloc: Global,
    terms: &[Term],
    sigma: &Sigma,
) -> Result<Items<Term>, NoMemory>
    ensures { IfOk result (λ r. r ≡ map (term_instance sigma.now) terms.now) }
{
    let mut done = Items::new(alloc);
    for t in terms {
        done.push(instance(alloc, t, sigma)?)?;
    }
    Ok(done)
}
