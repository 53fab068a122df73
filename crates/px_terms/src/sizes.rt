ghost use Rattle.std.specs.Prelude.{◌≡◌, ◌-◌, ◌^◌, map, min, sum};
ghost use Rattle.px_terms.specs.Types.{fun_size, ty_size, tys_size};
ghost use Rattle.px_terms.specs.Terms.{term_size, terms_size};

use crate::term::Term;
use crate::types::{Fun, Ty};

/// The nodes of the type, or 2^64 - 1 where it has more. It takes no memory.
#[cycle(size_of_ty)]
pub fn size_of_ty(ty: &Ty) -> u64
    ensures { result ≡ min (ty_size ty.now) (2 ^ 64 - 1) }
{
    match ty {
        Ty::Word => 1,
        Ty::Var(_) => 1,
        Ty::Con { args, .. } => size_of_tys(args.as_slice()).saturating_add(1),
    }
}

/// The nodes of the types together, or 2^64 - 1 where they have more. It takes no memory.
#[cycle(size_of_ty)]
pub fn size_of_tys(types: &[Ty]) -> u64
    ensures { result ≡ min (tys_size types.now) (2 ^ 64 - 1) }
{
    let mut total: u64 = 0;
    for ty in types {
        total = total.saturating_add(size_of_ty(ty));
    }
    total
}

/// The nodes of the functions together: each is one node above its types. Or 2^64 - 1 where they have more.
fn size_of_funs(funs: &[Fun]) -> u64
    ensures { result ≡ min (sum (map fun_size funs.now)) (2 ^ 64 - 1) }
{
    let mut total: u64 = 0;
    for fun in funs {
        total = total
            .saturating_add(1)
            .saturating_add(size_of_tys(fun.types.as_slice()));
    }
    total
}

/// The nodes of the term with those of its types, or 2^64 - 1 where it has more. A call's function is no
/// node, and its types stand below the call; each function argument is one node above its types. It takes
/// no memory; its calls nest as deep as the term.
#[cycle(size)]
pub fn size(t: &Term) -> u64
    ensures { result ≡ min (term_size t.now) (2 ^ 64 - 1) }
{
    match t {
        Term::Free(_) | Term::Bound(_) | Term::Lit(_) => 1,
        Term::Con { types, fields, .. } => size_of_tys(types.as_slice())
            .saturating_add(size_of_terms(fields.as_slice()))
            .saturating_add(1),
        Term::Call { fun, funs, args } => size_of_tys(fun.types.as_slice())
            .saturating_add(size_of_funs(funs.as_slice()))
            .saturating_add(size_of_terms(args.as_slice()))
            .saturating_add(1),
        Term::Match {
            on,
            types,
            arms,
            ..
        } => size(on.get())
            .saturating_add(size_of_tys(types.as_slice()))
            .saturating_add(size_of_terms(arms.as_slice()))
            .saturating_add(1),
    }
}

/// The nodes of the terms together, or 2^64 - 1 where they have more. It takes no memory.
#[cycle(size)]
pub fn size_of_terms(terms: &[Term]) -> u64
    ensures { result ≡ min (terms_size terms.now) (2 ^ 64 - 1) }
{
    let mut total: u64 = 0;
    for t in terms {
        total = total.saturating_add(size(t));
    }
    total
}
