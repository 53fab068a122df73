//! Terms.
ghost use Rattle.std.specs.Prelude.{◌≡◌, length, map, reverse, slice_get, OnOk};
ghost use Rattle.std.specs.Option.{option_copied};
ghost use Rattle.px_types.specs.Answers.{Answers};
ghost use Rattle.px_types.specs.Envs.{arm_of, chosen_in, env_of, scrutinee_part, tys_of, variable_type_found};
ghost use Rattle.px_types.specs.Outcomes.{along};
ghost use Rattle.px_types.specs.Faults.{con_counts, counts_of};
ghost use Rattle.px_types.specs.Outcome.{arm_found, call_found, con_found, has_con_counts, has_counts, match_found, no_arms, part_found, part_of, parts_found, term_found, type_of_variable, variable_found};
ghost use Rattle.px_terms.specs.declared.term.Term.TheVariants as terms;

use crate::alike::{is_instance, is_same};
use crate::arguments::type_arguments;
use crate::arms::{
    Chosen, Scrutinee, bind, bodies_of, constructor, empty_slots, parts_of, pattern, unbind,
    with_body,
};
use crate::ends::{TypeEnd, TypeKind};
use crate::env::{Env, Instances};
use crate::heads::{built_in, can_call, counts_at, find_called};
use crate::met::{con_met, instance_met, ty_met};
use crate::typed::{Slots, Typed};
use crate::types::{need, type_tys};
use px_terms::{Fun, RawArm, RawFun, RawTerm, RawTy, Term, Ty, copy_ty, copy_tys, instance_of_ty};
use sqlite_items::{Boxed, Items, at};

/// What is written of a construction besides its fields, with its first byte.
#[derive(Clone, Copy)]
struct WrittenCon<'a> {
    at: u32,
    datatype: u32,
    con: u32,
    types: &'a Items<RawTy>,
}

/// What is written of a call besides its values, with its first byte.
#[derive(Clone, Copy)]
struct WrittenCall<'a> {
    at: u32,
    fun: &'a RawFun,
    funs: &'a Items<RawFun>,
}

/// The written term with its type, or its first fault. `bound` has the types of the pattern variables around it, the
/// innermost last; it is as it was, unless there is an end. It takes memory; its calls nest as deep as the term.
#[cycle(type_term)]
pub(crate) fn type_term(
    env: &Env<'_>,
    raw: &RawTerm,
    bound: &mut Items<Ty>,
) -> Result<Typed, TypeEnd>
    ensures answers { Answers (term_found (env_of env.now) raw.now (reverse bound.old)) result }
    ensures bound { OnOk result (bound.new ≡ bound.old) }
{
    match &raw.kind {
        px_terms::RawKind::Free { number, types } => type_free(env, *number, types, raw.at),
        px_terms::RawKind::Bound { number, types } => {
            let ty = type_variable(env, nearest(bound, *number), types, raw.at)?;
            let term = Term::Bound(*number);
            Ok(Typed { term, ty })
        }
        px_terms::RawKind::Lit(word) => Ok(Typed {
            term: Term::Lit(*word),
            ty: Ty::Word,
        }),
        px_terms::RawKind::Con {
            datatype,
            con,
            types,
            fields,
        } => {
            let written = WrittenCon {
                at: raw.at,
                datatype: *datatype,
                con: *con,
                types,
            };
            type_con(env, fields, &written, bound)
        }
        px_terms::RawKind::Call { fun, funs, args } => {
            let at = raw.at;
            type_call(env, args, &WrittenCall { at, fun, funs }, bound)
        }
        px_terms::RawKind::Match { on, arms } => {
            let (at, on_at) = (raw.at, on.get().at);
            let found = type_term(env, on.get(), bound)?;
            type_match(env, arms, Scrutinee { at, on_at, found }, bound)
        }
    }
}

/// A data variable with its type, or its fault. It takes memory.
fn type_free(env: &Env<'_>, number: u32, types: &Items<RawTy>, place: u32) -> Result<Typed, TypeEnd>
    ensures { let E = env_of env.now in Answers (variable_found E (terms.Free number) (type_of_variable E number) types.now place) result }
{
    let stands = at(env.vars.as_slice(), number as usize);
    let ty = type_variable(env, stands, types, place)?;
    let term = Term::Free(number);
    Ok(Typed { term, ty })
}

/// The type of the pattern variable of this number, counted from the inside. It takes no memory.
fn nearest(bound: &Items<Ty>, number: u32) -> Option<&Ty>
    ensures { option_copied result ≡ slice_get (reverse bound.now) number }
{
    let number = number as usize;
    if bound.len() <= number {
        return None;
    }
    at(bound.as_slice(), bound.len() - 1 - number)
}

/// The type of a variable that has this one, where nothing is written after it, or its fault. It takes memory.
#[tactic(auto, unfolding(crate::specs::Envs::variable_type_found, crate::specs::Outcomes::onward, crate::specs::Outcomes::there))]
fn type_variable(
    env: &Env<'_>,
    stands: Option<&Ty>,
    types: &Items<RawTy>,
    at: u32,
) -> Result<Ty, TypeEnd>
    ensures { Answers (variable_type_found (env_of env.now) (option_copied stands.entry) types.now at) result }
{
    need(types.len() == 0, TypeKind::Arity, at)?;
    let Some(ty) = stands else {
        return Err(fault(TypeKind::Arity, at));
    };
    need(ty_met(env, ty), TypeKind::Oversize, at)?;
    Ok(copy_ty(env.alloc, ty)?)
}

/// Whether the construction has as many types and fields as its constructor takes. It takes no memory.
#[tactic(auto, unfolding(crate::specs::Outcome::has_con_counts))]
fn con_has_counts(env: &Env<'_>, written: &WrittenCon<'_>, fields: usize) -> bool
    ensures { result ≡ has_con_counts (con_counts (env_of env.now).program written.now.datatype written.now.con) (length written.now.types.now) fields }
{
    let Some(data) = at(env.program.datatypes.as_slice(), written.datatype as usize) else {
        return false;
    };
    let Some(con) = at(data.cons.as_slice(), written.con as usize) else {
        return false;
    };
    data.tparams as usize == written.types.len() && con.fields.len() == fields
}

/// A construction with its type, or its first fault.
#[cycle(type_term)]
#[tactic(auto, unfolding(crate::specs::Outcome::con_found, crate::specs::Outcome::parts_found, crate::specs::Outcomes::onward, crate::specs::Outcomes::there))]
fn type_con(
    env: &Env<'_>,
    fields: &Items<RawTerm>,
    written: &WrittenCon<'_>,
    bound: &mut Items<Ty>,
) -> Result<Typed, TypeEnd>
    ensures answers { Answers (con_found (env_of env.now) (reverse bound.old) written.now.at written.now.datatype written.now.con written.now.types.now (map (part_of (env_of env.now)) fields.now)) result }
    ensures bound { OnOk result (bound.new ≡ bound.old) }
{
    let has_counts = con_has_counts(env, written, fields.len());
    need(has_counts, TypeKind::Arity, written.at)?;
    let types = type_tys(env.alloc, env.program, env.tparams, written.types)?;
    let Some(con) = constructor(env, written.datatype, written.con) else {
        return Err(fault(TypeKind::Arity, written.at));
    };
    let wanted = Instances {
        tys: &con.fields,
        types: &types,
    };
    let fields = type_parts(env, fields, &wanted, bound)?;
    need(con_met(env, &types), TypeKind::Oversize, written.at)?;
    let ty = Ty::Con {
        datatype: written.datatype,
        args: copy_tys(env.alloc, types.as_slice())?,
    };
    let term = Term::Con {
        datatype: written.datatype,
        con: written.con,
        types,
        fields,
    };
    Ok(Typed { term, ty })
}

/// Whether the call has as many types, functions and values as what is called takes. It takes no memory.
#[tactic(auto, unfolding(crate::specs::Outcome::has_counts))]
fn call_has_counts(env: &Env<'_>, written: &WrittenCall<'_>, values: usize) -> bool
    ensures { result ≡ has_counts (counts_of (env_of env.now) written.now.fun.now.head) (length written.now.fun.now.types) (length written.now.funs.now) values }
{
    match counts_at(env, written.fun.head) {
        Some(taken) => {
            taken.types == written.fun.types.len()
                && taken.functions == written.funs.len()
                && taken.values == values
        }
        None => false,
    }
}

/// A call with its type, or its first fault.
#[cycle(type_term)]
#[tactic(auto, unfolding(crate::specs::Outcome::call_found, crate::specs::Outcome::parts_found, crate::specs::Outcomes::onward, crate::specs::Outcomes::there))]
fn type_call(
    env: &Env<'_>,
    args: &Items<RawTerm>,
    written: &WrittenCall<'_>,
    bound: &mut Items<Ty>,
) -> Result<Typed, TypeEnd>
    ensures answers { Answers (call_found (env_of env.now) (reverse bound.old) written.now.at written.now.fun.now written.now.funs.now (map (part_of (env_of env.now)) args.now)) result }
    ensures bound { OnOk result (bound.new ≡ bound.old) }
{
    let (at, head) = (written.at, written.fun.head);
    let has_counts = call_has_counts(env, written, args.len());
    need(has_counts, TypeKind::Arity, at)?;
    let types = type_tys(env.alloc, env.program, env.tparams, &written.fun.types)?;
    need(can_call(env, head, &types), TypeKind::Mismatch, at)?;
    let comparison = built_in(env.alloc)?;
    let Some(called) = find_called(env, head, &types, &comparison) else {
        return Err(fault(TypeKind::Arity, at));
    };
    let funs = type_arguments(env, written.funs, called.takes, called.types)?;
    let wanted = Instances {
        tys: called.params,
        types: called.types,
    };
    let args = type_parts(env, args, &wanted, bound)?;
    let is_met = instance_met(env, called.result, called.types);
    need(is_met, TypeKind::Oversize, at)?;
    let ty = instance_of_ty(env.alloc, called.result, called.types.as_slice())?;
    let fun = Fun { head, types };
    let term = Term::Call { fun, funs, args };
    Ok(Typed { term, ty })
}

/// The fault that this rule is broken here.
fn fault(kind: TypeKind, at: u32) -> TypeEnd
    ensures { result ≡ TypeEnd.Fault kind at }
{
    TypeEnd::Fault { kind, at }
}

/// A match with its type, or its first fault.
#[cycle(type_term)]
#[tactic(auto, unfolding(crate::specs::Outcome::match_found, crate::specs::Outcomes::onward, crate::specs::Outcomes::there))]
fn type_match(
    env: &Env<'_>,
    arms: &Items<RawArm>,
    scrutinee: Scrutinee,
    bound: &mut Items<Ty>,
) -> Result<Typed, TypeEnd>
    ensures answers { Answers (match_found (env_of env.now) (reverse bound.old) scrutinee.at (scrutinee_part scrutinee) (map (arm_of (env_of env.now)) arms.now)) result }
    ensures bound { OnOk result (bound.new ≡ bound.old) }
{
    let Scrutinee {
        at: place,
        on_at,
        found,
    } = scrutinee;
    let Typed { term, ty } = found;
    let Some(parts) = parts_of(ty) else {
        return Err(fault(TypeKind::Mismatch, on_at));
    };
    let Some(datatype) = at(env.program.datatypes.as_slice(), parts.number as usize) else {
        return Err(fault(TypeKind::Mismatch, on_at));
    };
    let chosen = Chosen {
        number: parts.number,
        types: &parts.types,
        datatype,
    };
    let Slots { ty, bodies } = type_arms(env, arms, &chosen, bound)?;
    let Some(bodies) = bodies_of(env.alloc, bodies)? else {
        return Err(fault(TypeKind::ArmMissing, place));
    };
    let Some(ty) = ty else {
        return Err(fault(TypeKind::ArmMissing, place));
    };
    let term = Term::Match {
        on: Boxed::new(env.alloc, term)?,
        datatype: parts.number,
        types: parts.types,
        arms: bodies,
    };
    Ok(Typed { term, ty })
}

/// The arms of a match on this, or their first fault.
#[cycle(type_term)]
fn type_arms(
    env: &Env<'_>,
    arms: &Items<RawArm>,
    on: &Chosen<'_>,
    bound: &mut Items<Ty>,
) -> Result<Slots, TypeEnd>
    ensures answers { Answers (along (arm_found (env_of env.now) (reverse bound.old) (chosen_in on.now)) (no_arms on.now.datatype.now) (map (arm_of (env_of env.now)) arms.now)) result }
    ensures bound { OnOk result (bound.new ≡ bound.old) }
{
    let mut slots = empty_slots(env.alloc, on.datatype)?;
    for arm in arms.as_slice() {
        let con = pattern(env, arm, on, &slots)?;
        let fields = Instances {
            tys: &con.fields,
            types: on.types,
        };
        bind(env.alloc, &fields, bound)?;
        let found = type_term(env, &arm.body, bound)?;
        unbind(bound, con.fields.len());
        slots = with_body(slots, arm, found)?;
    }
    Ok(slots)
}

/// The written terms, where each should have the type at its place, or their first fault.
#[cycle(type_term)]
fn type_parts(
    env: &Env<'_>,
    raws: &Items<RawTerm>,
    wanted: &Instances<'_>,
    bound: &mut Items<Ty>,
) -> Result<Items<Term>, TypeEnd>
    ensures answers { Answers (parts_found (env_of env.now) (reverse bound.old) raws.now (tys_of wanted.now)) result }
    ensures bound { OnOk result (bound.new ≡ bound.old) }
{
    let mut terms = Items::new(env.alloc);
    for (number, raw) in raws.as_slice().iter().enumerate() {
        let Some(wanted_ty) = at(wanted.tys.as_slice(), number) else {
            return Ok(terms);
        };
        let is_met = instance_met(env, wanted_ty, wanted.types);
        need(is_met, TypeKind::Oversize, raw.at)?;
        let Typed { term, ty } = type_term(env, raw, bound)?;
        let is_wanted = is_instance(&ty, wanted_ty, wanted.types);
        need(is_wanted, TypeKind::Mismatch, raw.at)?;
        terms.push(term)?;
    }
    Ok(terms)
}

/// The written term where one of this type is wanted, or its first fault. `bound` is as for `type_term`. It takes memory.
#[tactic(auto, unfolding(crate::specs::Outcomes::onward))]
pub(crate) fn type_part(
    env: &Env<'_>,
    raw: &RawTerm,
    wanted: &Ty,
    bound: &mut Items<Ty>,
) -> Result<Term, TypeEnd>
    ensures answers { Answers (part_found (env_of env.now) (reverse bound.old) (part_of (env_of env.now) raw.now) wanted.now) result }
    ensures bound { OnOk result (bound.new ≡ bound.old) }
{
    need(ty_met(env, wanted), TypeKind::Oversize, raw.at)?;
    let Typed { term, ty } = type_term(env, raw, bound)?;
    need(is_same(&ty, wanted), TypeKind::Mismatch, raw.at)?;
    Ok(term)
}
