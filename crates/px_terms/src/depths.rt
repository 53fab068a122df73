ghost use Rattle.std.specs.Prelude.{◌≡◌, ◌-◌, ◌^◌, map, min};
ghost use Rattle.px_base.specs.Largest.{largest};
ghost use Rattle.px_terms.specs.Types.{fun_depth, ty_depth, tys_depth};
ghost use Rattle.px_terms.specs.Terms.{term_depth, terms_depth};

use crate::term::Term;
use crate::types::{Fun, Ty};

/// The depth of the type, or 2^32 - 1 where it is deeper: a type without arguments has depth 1. It takes no
/// memory.
#[cycle(depth_of_ty)]
pub fn depth_of_ty(ty: &Ty) -> u32
    ensures { result ≡ min (ty_depth ty.now) (2 ^ 32 - 1) }
{
    match ty {
        Ty::Word => 1,
        Ty::Var(_) => 1,
        Ty::Con { args, .. } => depth_of_tys(args.as_slice()).saturating_add(1),
    }
}

/// The depth of the deepest of the types, 0 where there is none, or 2^32 - 1 where it is deeper. It takes no
/// memory.
#[cycle(depth_of_ty)]
pub fn depth_of_tys(types: &[Ty]) -> u32
    ensures { result ≡ min (tys_depth types.now) (2 ^ 32 - 1) }
{
    let mut deepest: u32 = 0;
    for ty in types {
        deepest = deepest.max(depth_of_ty(ty));
    }
    deepest
}

/// The depth of the function as an argument: one node above its types.
fn depth_of_fun(fun: &Fun) -> u32
    ensures { result ≡ min (fun_depth fun.now) (2 ^ 32 - 1) }
{
    depth_of_tys(fun.types.as_slice()).saturating_add(1)
}

/// The depth of the deepest of the functions.
fn depth_of_funs(funs: &[Fun]) -> u32
    ensures { result ≡ min (largest (map fun_depth funs.now)) (2 ^ 32 - 1) }
{
    let mut deepest: u32 = 0;
    for fun in funs {
        deepest = deepest.max(depth_of_fun(fun));
    }
    deepest
}

/// The depth of the term with its types, or 2^32 - 1 where it is deeper. A node without children has depth 1;
/// the children are those that `size` counts. It takes no memory; its calls nest as deep as the term.
#[cycle(depth)]
pub fn depth(t: &Term) -> u32
    ensures { result ≡ min (term_depth t.now) (2 ^ 32 - 1) }
{
    match t {
        Term::Free(_) | Term::Bound(_) | Term::Lit(_) => 1,
        Term::Con { types, fields, .. } => {
            let below = depth_of_tys(types.as_slice()).max(depth_of_terms(fields.as_slice()));
            below.saturating_add(1)
        }
        Term::Call { fun, funs, args } => {
            let functions = depth_of_tys(fun.types.as_slice()).max(depth_of_funs(funs.as_slice()));
            functions
                .max(depth_of_terms(args.as_slice()))
                .saturating_add(1)
        }
        Term::Match {
            on,
            types,
            arms,
            ..
        } => {
            let scrutinee = depth(on.get()).max(depth_of_tys(types.as_slice()));
            scrutinee
                .max(depth_of_terms(arms.as_slice()))
                .saturating_add(1)
        }
    }
}

/// The depth of the deepest of the terms, 0 where there is none, or 2^32 - 1 where it is deeper. It takes no
/// memory.
#[cycle(depth)]
pub fn depth_of_terms(terms: &[Term]) -> u32
    ensures { result ≡ min (terms_depth terms.now) (2 ^ 32 - 1) }
{
    let mut deepest: u32 = 0;
    for t in terms {
        deepest = deepest.max(depth(t));
    }
    deepest
}
