ghost use Rattle.std.specs.Prelude.{◌≡◌, ◌+◌, ◌≤◌, ◌↔◌, IsTrue, MatchOption};
ghost use Rattle.px_terms.specs.Types.{ty_depth, ty_instance, ty_size, tys_depth, tys_instance, tys_size};

use crate::types::Ty;
use sqlite_items::at;

/// Whether the type has at most so many nodes and is at most so deep. It takes no memory, and stops where the nodes are
/// used up; its calls nest at most as deep as it may be.
pub fn ty_is_within(ty: &Ty, nodes: u64, depth: u32) -> bool
    ensures { IsTrue result ↔ ((ty_size ty.now ≤ nodes) × (ty_depth ty.now ≤ depth)) }
{
    room_after(ty, nodes, depth).is_some()
}

/// Whether the type with these types put in for its type variables has at most so many nodes and is at most so deep: it is
/// not made. It takes no memory, and stops where the nodes are used up; its calls nest at most as deep as it may be.
pub fn instance_is_within(ty: &Ty, types: &[Ty], nodes: u64, depth: u32) -> bool
    ensures { IsTrue result ↔ ((ty_size (ty_instance types.now ty.now) ≤ nodes) × (ty_depth (ty_instance types.now ty.now) ≤ depth)) }
{
    room_after_instance(ty, types, nodes, depth).is_some()
}

/// The nodes that are left of so many after the type's, where it is at most so deep; nothing where it does not fit.
#[cycle(room_after)]
fn room_after(ty: &Ty, nodes: u64, depth: u32) -> Option<u64>
    ensures { MatchOption result (¬ ((ty_size ty.now ≤ nodes) × (ty_depth ty.now ≤ depth))) (λ left. (left + ty_size ty.now ≡ nodes) × (ty_depth ty.now ≤ depth)) }
{
    if nodes == 0 || depth == 0 {
        return None;
    }
    match ty {
        Ty::Word => Some(nodes - 1),
        Ty::Var(_) => Some(nodes - 1),
        Ty::Con { args, .. } => room_after_each(args.as_slice(), nodes - 1, depth - 1),
    }
}

/// The same of several types: together they have the nodes, and each is at most so deep.
#[cycle(room_after)]
fn room_after_each(types: &[Ty], nodes: u64, depth: u32) -> Option<u64>
    ensures { MatchOption result (¬ ((tys_size types.now ≤ nodes) × (tys_depth types.now ≤ depth))) (λ left. (left + tys_size types.now ≡ nodes) × (tys_depth types.now ≤ depth)) }
{
    let mut left = nodes;
    for ty in types {
        let Some(after) = room_after(ty, left, depth) else {
            return None;
        };
        left = after;
    }
    Some(left)
}

/// The nodes that are left of so many after those of the type with these types put in, where it is at most so deep.
#[cycle(room_after_instance)]
fn room_after_instance(ty: &Ty, types: &[Ty], nodes: u64, depth: u32) -> Option<u64>
    ensures { MatchOption result (¬ ((ty_size (ty_instance types.now ty.now) ≤ nodes) × (ty_depth (ty_instance types.now ty.now) ≤ depth))) (λ left. (left + ty_size (ty_instance types.now ty.now) ≡ nodes) × (ty_depth (ty_instance types.now ty.now) ≤ depth)) }
{
    if nodes == 0 || depth == 0 {
        return None;
    }
    match ty {
        Ty::Word => Some(nodes - 1),
        Ty::Var(number) => match at(types, *number as usize) {
            Some(by) => room_after(by, nodes, depth),
            None => Some(nodes - 1),
        },
        Ty::Con { args, .. } => room_after_instances(args.as_slice(), types, nodes - 1, depth - 1),
    }
}

/// The same of several types.
#[cycle(room_after_instance)]
fn room_after_instances(tys: &[Ty], types: &[Ty], nodes: u64, depth: u32) -> Option<u64>
    ensures { MatchOption result (¬ ((tys_size (tys_instance types.now tys.now) ≤ nodes) × (tys_depth (tys_instance types.now tys.now) ≤ depth))) (λ left. (left + tys_size (tys_instance types.now tys.now) ≡ nodes) × (tys_depth (tys_instance types.now tys.now) ≤ depth)) }
{
    let mut left = nodes;
    for ty in tys {
        let Some(after) = room_after_instance(ty, types, left, depth) else {
            return None;
        };
        left = after;
    }
    Some(left)
}
