//! Types that are compared with other types put in for their type variables. Nothing here takes memory, and no type is made.
ghost use Rattle.std.specs.Prelude.{◌≡◌, ◌↔◌, IsTrue};
ghost use Rattle.px_terms.specs.Types.{ty_instance, tys_instance};

use px_terms::{Ty, same_ty};
use sqlite_items::{Items, at};

/// Whether the type is what the other becomes. Its calls nest at most as deep as the type.
#[cycle(becomes)]
pub(crate) fn becomes(ty: &Ty, other: &Ty, types: &Items<Ty>) -> bool
    ensures { IsTrue result ↔ (ty.now ≡ ty_instance types.now other.now) }
{
    match other {
        Ty::Word => same_ty(ty, other),
        Ty::Var(number) => match at(types.as_slice(), *number as usize) {
            Some(by) => same_ty(ty, by),
            None => same_ty(ty, other),
        },
        Ty::Con { datatype, args } => match ty {
            Ty::Con {
                datatype: own,
                args: own_args,
            } => own == datatype && all_become(own_args, args, types),
            Ty::Word | Ty::Var(_) => false,
        },
    }
}

/// Whether the types are what the others become, in the same order.
#[cycle(becomes)]
pub(crate) fn all_become(tys: &Items<Ty>, others: &Items<Ty>, types: &Items<Ty>) -> bool
    ensures { IsTrue result ↔ (tys.now ≡ tys_instance types.now others.now) }
{
    let tys = tys.as_slice();
    let others = others.as_slice();
    if tys.len() != others.len() {
        return false;
    }
    for i in 0..tys.len() {
        if !becomes(&tys[i], &others[i], types) {
            return false;
        }
    }
    true
}

/// Whether two types become one, each with its own types put in. Its calls nest at most as deep as the first.
#[cycle(meets)]
pub(crate) fn meets(ty: &Ty, types: &Items<Ty>, other: &Ty, others: &Items<Ty>) -> bool
    ensures { IsTrue result ↔ (ty_instance types.now ty.now ≡ ty_instance others.now other.now) }
{
    match ty {
        Ty::Word => becomes(ty, other, others),
        Ty::Var(number) => match at(types.as_slice(), *number as usize) {
            Some(by) => becomes(by, other, others),
            None => becomes(ty, other, others),
        },
        Ty::Con { datatype, args } => match other {
            Ty::Con {
                datatype: number,
                args: other_args,
            } => datatype == number && all_meet(args, types, other_args, others),
            Ty::Var(number) => match at(others.as_slice(), *number as usize) {
                Some(by) => becomes(by, ty, types),
                None => false,
            },
            Ty::Word => false,
        },
    }
}

/// Whether the lists become the same types in the same order.
#[cycle(meets)]
pub(crate) fn all_meet(
    tys: &Items<Ty>,
    types: &Items<Ty>,
    wanted: &Items<Ty>,
    others: &Items<Ty>,
) -> bool
    ensures { IsTrue result ↔ (tys_instance types.now tys.now ≡ tys_instance others.now wanted.now) }
{
    let tys = tys.as_slice();
    let wanted = wanted.as_slice();
    if tys.len() != wanted.len() {
        return false;
    }
    for i in 0..tys.len() {
        if !meets(&tys[i], types, &wanted[i], others) {
            return false;
        }
    }
    true
}
