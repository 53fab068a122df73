//! Written types.
ghost use Rattle.std.specs.Prelude.{◌≡◌, ◌+◌, ◌≤◌, length, map, sum, MatchOption};
ghost use Rattle.px_base.specs.Largest.{largest};
ghost use Rattle.px_base.specs.declared.raw.RawTy.{out-RawTy};
ghost use Rattle.px_types.specs.Answers.{Answers};
ghost use Rattle.px_types.specs.Faults.{raw_ty_depth, raw_ty_size, ty_count};
ghost use Rattle.px_types.specs.Outcome.{is_count, is_small_over, ty_found, ty_of, tys_found};
ghost use Rattle.px_types.specs.Outcomes.{needs};

use crate::ends::{TypeEnd, TypeKind};
use px_terms::limits::{TYPE_DEPTH, TYPE_NODES};
use px_terms::{Program, RawTy, RawTyKind, Ty};
use sqlite_items::{Items, at};
use std::alloc::Global;

/// Nothing, where the test holds; else the fault that this rule is broken here.
#[tactic(auto, unfolding(crate::specs::Outcomes::needs))]
pub(crate) fn need(holds: bool, kind: TypeKind, at: u32) -> Result<(), TypeEnd>
    ensures { Answers (needs holds kind at) result }
{
    if holds {
        Ok(())
    } else {
        Err(TypeEnd::Fault { kind, at })
    }
}

/// The type of a written one, over so many type parameters, or its first fault. It takes memory; its calls nest as deep as
/// the type, which is within the limits.
#[cycle(type_ty)]
pub fn type_ty(alloc: Global, program: &Program, tparams: u32, raw: &RawTy) -> Result<Ty, TypeEnd>
    ensures { Answers (ty_found program.now tparams raw.now) result }
{
    need(has_count(program, tparams, raw), TypeKind::Arity, raw.at)?;
    need(is_small(raw), TypeKind::Oversize, raw.at)?;
    let args = type_tys(alloc, program, tparams, &raw.args)?;
    Ok(made_of(raw.kind, args))
}

/// The types of written ones, or their first fault. It takes memory.
#[cycle(type_ty)]
pub fn type_tys(
    alloc: Global,
    program: &Program,
    tparams: u32,
    raws: &Items<RawTy>,
) -> Result<Items<Ty>, TypeEnd>
    ensures { Answers (tys_found program.now tparams raws.now) result }
{
    let mut types = Items::new(alloc);
    for raw in raws.as_slice() {
        types.push(type_ty(alloc, program, tparams, raw)?)?;
    }
    Ok(types)
}

/// The type of this kind, with these arguments. It takes no memory.
fn made_of(kind: RawTyKind, args: Items<Ty>) -> Ty
    ensures { result ≡ ty_of kind args }
{
    match kind {
        RawTyKind::Word => Ty::Word,
        RawTyKind::Var(number) => Ty::Var(number),
        RawTyKind::Con(datatype) => Ty::Con { datatype, args },
    }
}

/// Whether the written type has as many arguments as it takes, where it names what is there. It takes no memory.
fn has_count(program: &Program, tparams: u32, raw: &RawTy) -> bool
    ensures { result ≡ is_count (ty_count program.now tparams (out-RawTy raw.now).kind) (length (out-RawTy raw.now).args) }
{
    let given = raw.args.len();
    match raw.kind {
        RawTyKind::Word => 0 == given,
        RawTyKind::Var(number) => number < tparams && 0 == given,
        RawTyKind::Con(datatype) => match at(program.datatypes.as_slice(), datatype as usize) {
            Some(data) => data.tparams as usize == given,
            None => false,
        },
    }
}

/// Whether the written type is within the limits of types that are met. It takes no memory.
fn is_small(raw: &RawTy) -> bool
    ensures { result ≡ is_small_over (out-RawTy raw.now).args }
{
    room_after(raw, TYPE_NODES, TYPE_DEPTH).is_some()
}

/// The nodes that are left of so many after the written type's, where it is at most so deep; nothing where it does not fit.
/// It takes no memory, and stops where the nodes are used up.
#[cycle(room_after)]
fn room_after(raw: &RawTy, nodes: u64, depth: u32) -> Option<u64>
    ensures { MatchOption result (¬ ((raw_ty_size raw.now ≤ nodes) × (raw_ty_depth raw.now ≤ depth))) (λ left. (left + raw_ty_size raw.now ≡ nodes) × (raw_ty_depth raw.now ≤ depth)) }
{
    if nodes == 0 || depth == 0 {
        return None;
    }
    room_after_each(raw.args.as_slice(), nodes - 1, depth - 1)
}

/// The same of several written types.
#[cycle(room_after)]
fn room_after_each(raws: &[RawTy], nodes: u64, depth: u32) -> Option<u64>
    ensures { MatchOption result (¬ ((sum (map raw_ty_size raws.now) ≤ nodes) × (largest (map raw_ty_depth raws.now) ≤ depth))) (λ left. (left + sum (map raw_ty_size raws.now) ≡ nodes) × (largest (map raw_ty_depth raws.now) ≤ depth)) }
{
    let mut left = nodes;
    for raw in raws {
        let Some(after) = room_after(raw, left, depth) else {
            return None;
        };
        left = after;
    }
    Some(left)
}
