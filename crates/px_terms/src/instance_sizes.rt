ghost use Rattle.std.specs.Prelude.{◌≡◌, ◌-◌, ◌^◌, map, min, sum};
ghost use Rattle.px_terms.specs.Types.{fun_instance, fun_size, ty_instance, ty_size, tys_instance, tys_size};
ghost use Rattle.px_terms.specs.Terms.{term_instance, term_size, terms_size};

use crate::clause::Sigma;
use crate::sizes::{size, size_of_ty, size_of_tys};
use crate::term::Term;
use crate::types::{Fun, Ty};
use px_base::Head;
use sqlite_items::at;

/// The nodes of the type with these types put in for its type variables, or 2^64 - 1 where it has more.
#[cycle(size_of_ty_instance)]
fn size_of_ty_instance(ty: &Ty, types: &[Ty]) -> u64
    ensures { result ≡ min (ty_size (ty_instance types.now ty.now)) (2 ^ 64 - 1) }
{
    match ty {
        Ty::Word => 1,
        Ty::Var(number) => match at(types, *number as usize) {
            Some(by) => size_of_ty(by),
            None => 1,
        },
        Ty::Con { args, .. } => size_of_tys_instance(args.as_slice(), types).saturating_add(1),
    }
}

/// The nodes of the types together, with these types put in for their type variables.
#[cycle(size_of_ty_instance)]
fn size_of_tys_instance(tys: &[Ty], types: &[Ty]) -> u64
    ensures { result ≡ min (tys_size (tys_instance types.now tys.now)) (2 ^ 64 - 1) }
{
    let mut total: u64 = 0;
    for ty in tys {
        total = total.saturating_add(size_of_ty_instance(ty, types));
    }
    total
}

/// The nodes of the types of the function that `sigma` makes of this one.
fn size_of_fun_instance(fun: &Fun, sigma: &Sigma) -> u64
    ensures { result ≡ min (tys_size (fun_instance sigma.now.types sigma.now.funs fun.now).types) (2 ^ 64 - 1) }
{
    match fun.head {
        Head::FnVar(number) => match at(sigma.funs.as_slice(), number as usize) {
            Some(by) => size_of_tys(by.types.as_slice()),
            None => size_of_tys_instance(fun.types.as_slice(), sigma.types.as_slice()),
        },
        Head::Def(_) | Head::Wle | Head::Weq => {
            size_of_tys_instance(fun.types.as_slice(), sigma.types.as_slice())
        }
    }
}

/// The nodes of the functions that `sigma` makes of these: each is one node above its types.
fn size_of_funs_instance(funs: &[Fun], sigma: &Sigma) -> u64
    ensures { result ≡ min (sum (map fun_size (map (fun_instance sigma.now.types sigma.now.funs) funs.now))) (2 ^ 64 - 1) }
{
    let mut total: u64 = 0;
    for fun in funs {
        total = total
            .saturating_add(1)
            .saturating_add(size_of_fun_instance(fun, sigma));
    }
    total
}

/// The nodes of the instance of the term, with those of its types, or 2^64 - 1 where it has more: of what
/// `instance` makes of it, which is not made. It takes no memory; its calls nest as deep as the term.
#[cycle(size_of_instance)]
pub fn size_of_instance(t: &Term, sigma: &Sigma) -> u64
    ensures { result ≡ min (term_size (term_instance sigma.now t.now)) (2 ^ 64 - 1) }
{
    match t {
        Term::Free(number) => match at(sigma.terms.as_slice(), *number as usize) {
            Some(by) => size(by),
            None => 1,
        },
        Term::Bound(_) | Term::Lit(_) => 1,
        Term::Con { types, fields, .. } => {
            size_of_tys_instance(types.as_slice(), sigma.types.as_slice())
                .saturating_add(size_of_terms_instance(fields.as_slice(), sigma))
                .saturating_add(1)
        }
        Term::Call { fun, funs, args } => size_of_fun_instance(fun, sigma)
            .saturating_add(size_of_funs_instance(funs.as_slice(), sigma))
            .saturating_add(size_of_terms_instance(args.as_slice(), sigma))
            .saturating_add(1),
        Term::Match {
            on,
            types,
            arms,
            ..
        } => size_of_instance(on.get(), sigma)
            .saturating_add(size_of_tys_instance(types.as_slice(), sigma.types.as_slice()))
            .saturating_add(size_of_terms_instance(arms.as_slice(), sigma))
            .saturating_add(1),
    }
}

/// The nodes of the instances of the terms together.
#[cycle(size_of_instance)]
fn size_of_terms_instance(terms: &[Term], sigma: &Sigma) -> u64
    ensures { result ≡ min (terms_size (map (term_instance sigma.now) terms.now)) (2 ^ 64 - 1) }
{
    let mut total: u64 = 0;
    for t in terms {
        total = total.saturating_add(size_of_instance(t, sigma));
    }
    total
}
