//! The arms of a match: their patterns, and the bodies that are kept for their constructors.
ghost use Rattle.std.specs.Prelude.{◌≡◌, ◌<◌, ◌-◌, ◌++◌, ℕ, List, Ok, None, length, take, reverse, IfOk, OnOk, MatchOption, MatchResult};
ghost use Rattle.std.specs.Option.{option_copied};
ghost use Rattle.px_terms.specs.declared.types.Ty.{out-Ty};
ghost use Rattle.px_terms.specs.declared.types.Ty.TheVariants as kinds;
ghost use Rattle.px_terms.specs.declared.program.Program.{Program as AnyProgram};
ghost use Rattle.px_terms.specs.Programs.{constructor_at};
ghost use Rattle.px_types.specs.Answers.{Answers, EndsAs};
ghost use Rattle.px_types.specs.Envs.{arm_of, chosen_in, env_of, filled_found, pattern_found, tys_of};
ghost use Rattle.px_types.specs.Outcomes.{each_two};
ghost use Rattle.px_types.specs.Outcome.{agrees, all_filled, chosen_of, is_open, no_arms, pattern_of, variable_met};

use crate::ends::{TypeEnd, TypeKind};
use crate::env::{Env, Instances};
use crate::met::instance_met;
use crate::typed::{Slots, Typed};
use crate::types::need;
use px_terms::{ConDef, DataDef, NoMemory, RawArm, Term, Ty, instance_of_ty, same_ty};
use sqlite_items::{Items, at};
use std::alloc::Global;

/// A scrutinee that is typed: the first bytes of its match and of its own, and what it is.
#[derive(Drop)]
pub(crate) struct Scrutinee {
    pub at: u32,
    pub on_at: u32,
    pub found: Typed,
}

/// What a scrutinee is of: a declared datatype, with its number, at these types.
#[derive(Clone, Copy)]
pub(crate) struct Chosen<'a> {
    pub number: u32,
    pub types: &'a Items<Ty>,
    pub datatype: &'a DataDef,
}

/// A datatype's number, with the types that it is at.
#[derive(Drop)]
pub(crate) struct Parts {
    pub number: u32,
    pub types: Items<Ty>,
}

/// The number and the types of a datatype's type; nothing of another type. It takes no memory.
pub(crate) fn parts_of(ty: Ty) -> Option<Parts>
    ensures { MatchOption result ((P : AnyProgram) → chosen_of P (out-Ty ty) ≡ None) (λ parts. ty ≡ kinds.Con parts.number parts.types) }
{
    match ty {
        Ty::Word => None,
        Ty::Var(_) => None,
        Ty::Con { datatype, args } => Some(Parts {
            number: datatype,
            types: args,
        }),
    }
}

/// The constructor of this number, where it is there. It takes no memory.
pub(crate) fn constructor<'a>(env: &Env<'a>, datatype: u32, con: u32) -> Option<&'a ConDef>
    ensures { option_copied result ≡ constructor_at (env_of env.now).program datatype con }
{
    let data = at(env.program.datatypes.as_slice(), datatype as usize)?;
    at(data.cons.as_slice(), con as usize)
}

/// The constructor of the pattern, where it has as many fields as the pattern has variables. It takes no memory.
#[tactic(auto, unfolding(crate::specs::Outcome::pattern_of, crate::specs::Envs::arm_of))]
fn pattern_constructor<'a>(env: &Env<'a>, arm: &RawArm) -> Option<&'a ConDef>
    ensures { option_copied result ≡ pattern_of (env_of env.now).program (arm_of (env_of env.now) arm.now) }
{
    let con = constructor(env, arm.datatype, arm.con)?;
    if arm.vars.len() == con.fields.len() {
        Some(con)
    } else {
        None
    }
}

/// Whether the constructor has no arm yet. It takes no memory.
#[tactic(auto, unfolding(crate::specs::Outcome::is_open))]
fn has_no_arm(slots: &Slots, con: u32) -> bool
    ensures { result ≡ is_open slots.now con }
{
    match at(slots.bodies.as_slice(), con as usize) {
        Some(slot) => slot.is_none(),
        None => false,
    }
}

/// Whether each variable of a pattern has a type within the limits, or the first that has not. It takes no memory.
fn variables_met(env: &Env<'_>, vars: &Items<u32>, fields: &Instances<'_>) -> Result<(), TypeEnd>
    ensures { let found = each_two (variable_met (env_of env.now)) vars.now (tys_of fields.now) in MatchResult result (λ _. (all : List (Unit {0})) × (found ≡ Ok all)) (EndsAs found) }
{
    for (number, var) in vars.as_slice().iter().enumerate() {
        let Some(ty) = at(fields.tys.as_slice(), number) else {
            return Ok(());
        };
        need(
            instance_met(env, ty, fields.types),
            TypeKind::Oversize,
            *var,
        )?;
    }
    Ok(())
}

/// The constructor of an arm whose pattern is right: as many variables as fields, a constructor of the datatype, which has no
/// arm yet, and variables of types within the limits. Else its first fault. It takes no memory.
#[tactic(auto, unfolding(crate::specs::Envs::pattern_found, crate::specs::Envs::arm_of, crate::specs::Outcomes::onward, crate::specs::Outcomes::there))]
pub(crate) fn pattern<'a>(
    env: &Env<'a>,
    arm: &RawArm,
    on: &Chosen<'_>,
    slots: &Slots,
) -> Result<&'a ConDef, TypeEnd>
    ensures answers { let found = pattern_found (env_of env.now) (chosen_in on.now) slots.now (arm_of (env_of env.now) arm.now) in MatchResult result (λ con. found ≡ Ok con.now) (EndsAs found) }
    ensures within { OnOk result (arm.now.con < length slots.now.bodies) }
{
    let Some(con) = pattern_constructor(env, arm) else {
        return Err(TypeEnd::Fault {
            kind: TypeKind::Arity,
            at: arm.at,
        });
    };
    need(arm.datatype == on.number, TypeKind::Mismatch, arm.at)?;
    need(has_no_arm(slots, arm.con), TypeKind::ArmRepeated, arm.at)?;
    let fields = Instances {
        tys: &con.fields,
        types: on.types,
    };
    variables_met(env, &arm.vars, &fields)?;
    Ok(con)
}

/// Puts the types of a pattern's variables on top of those around it. It takes memory, and fails only where there is none.
pub(crate) fn bind(
    alloc: Global,
    fields: &Instances<'_>,
    bound: &mut Items<Ty>,
) -> Result<(), NoMemory>
    ensures { OnOk result (bound.new ≡ bound.old ++ tys_of fields.now) }
{
    for ty in fields.tys.as_slice() {
        bound.push(instance_of_ty(alloc, ty, fields.types.as_slice())?)?;
    }
    Ok(())
}

/// Takes the types of so many variables off again. It takes no memory.
pub(crate) fn unbind(bound: &mut Items<Ty>, count: usize)
    ensures { bound.new ≡ take (length bound.old - count) bound.old }
{
    for _number in 0..count {
        let _last = bound.pop();
    }
}

/// No arms yet of so many constructors. It takes memory, and fails only where there is none.
pub(crate) fn empty_slots(alloc: Global, datatype: &DataDef) -> Result<Slots, NoMemory>
    ensures { IfOk result (λ slots. slots ≡ no_arms datatype.now) }
{
    let mut bodies = Items::new(alloc);
    for _number in 0..datatype.cons.len() {
        bodies.push(None)?;
    }
    Ok(Slots { ty: None, bodies })
}

/// Whether the type is that of the first arm, where there was one. It takes no memory.
#[tactic(auto, unfolding(crate::specs::Outcome::agrees))]
fn is_agreed(first: &Option<Ty>, ty: &Ty) -> bool
    ensures { result ≡ agrees first.now ty.now }
{
    match first {
        None => true,
        Some(first) => same_ty(ty, first),
    }
}

/// The arms with this one, whose body is typed; its fault where the body has another type than the first one. It takes no
/// memory.
#[tactic(auto, unfolding(crate::specs::Envs::filled_found, crate::specs::Outcomes::onward))]
pub(crate) fn with_body(slots: Slots, arm: &RawArm, found: Typed) -> Result<Slots, TypeEnd>
    requires { arm.now.con < length slots.bodies }
    ensures { Answers (filled_found slots arm.now.body.at arm.now.con found) result }
{
    need(
        is_agreed(&slots.ty, &found.ty),
        TypeKind::Mismatch,
        arm.body.at,
    )?;
    let Typed { term, ty } = found;
    let Slots {
        ty: _first,
        mut bodies,
    } = slots;
    bodies.set(arm.con as usize, Some(term));
    Ok(Slots {
        ty: Some(ty),
        bodies,
    })
}

/// The bodies in the order of the constructors, where each has one. It takes memory, and fails only where there is none.
pub(crate) fn bodies_of(
    alloc: Global,
    slots: Items<Option<Term>>,
) -> Result<Option<Items<Term>>, NoMemory>
    ensures { IfOk result (λ bodies. bodies ≡ all_filled slots) }
{
    let mut turned = turned_of(alloc, slots)?;
    let mut bodies = Items::new(alloc);
    while let Some(slot) = turned.pop() {
        match slot {
            Some(body) => bodies.push(body)?,
            None => return Ok(None),
        }
    }
    Ok(Some(bodies))
}

/// The slots, the last one first. It takes memory, and fails only where there is none.
fn turned_of(alloc: Global, slots: Items<Option<Term>>) -> Result<Items<Option<Term>>, NoMemory>
    ensures { IfOk result (λ turned. turned ≡ reverse slots) }
{
    let mut left = slots;
    let mut turned = Items::new(alloc);
    while let Some(slot) = left.pop() {
        turned.push(slot)?;
    }
    Ok(turned)
}
