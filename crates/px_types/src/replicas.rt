//! Replicas.
ghost use Rattle.std.specs.Prelude.{◌≡◌, ◌<◌, ◌^◌, ◌&&◌, ◌∷◌, [], length, Some, OnErr};
ghost use Rattle.px_terms.specs.Types.{ty_instance, tys_instance};
ghost use Rattle.px_types.specs.Answers.{Answers};
ghost use Rattle.px_types.specs.Checkings.{AnswersAs, AreFew, AreNotes, Takes, merge_rest};
ghost use Rattle.px_types.specs.Declarations.{replica_env, with_replica};
ghost use Rattle.px_types.specs.Envs.{env_of};
ghost use Rattle.px_types.specs.NextOutcome.{checked, has_merge_counts, is_joining, merge_found, state_found};
ghost use Rattle.px_types.specs.Outcome.{Signature, arguments_found, same, same_all, signature_of};

use crate::alike::is_instance;
use crate::arguments::type_arguments;
use crate::ends::{TypeEnd, TypeKind};
use crate::env::{Env, Stand};
use crate::said::knows_all;
use crate::terms::type_part;
use crate::types::{need, type_ty, type_tys};
use px_terms::{Def, Fun, Head, Program, PropSet, RawReplica, ReplicaDef, Term, Ty};
use sqlite_items::{Items, at};
use std::alloc::Global;

/// The set of `comm`, `assoc` and `idem`.
const JOINING: PropSet = PropSet {
    has: [
        true, true, true, false, false, false, false, false, false, false, false,
    ],
};

/// Nothing, where the next replica's state is a right type; else its first fault. It takes memory.
#[tactic(auto, unfolding(crate::specs::NextOutcome::checked, crate::specs::NextOutcome::state_found, crate::specs::Outcomes::onward))]
pub(crate) fn check_state(alloc: Global, program: &Program, raw: &RawReplica) -> Result<(), TypeEnd>
    ensures { Answers (checked (state_found program.now raw.now)) result }
{
    type_ty(alloc, program, 0, &raw.state)?;
    Ok(())
}

/// Puts the next replica, whose state is right, behind those of the program; or answers the first fault of its first value
/// and its merge, and the program is then as before. It takes memory.
pub(crate) fn take_replica(
    alloc: Global,
    program: &mut Program,
    notes: &Items<PropSet>,
    raw: &RawReplica,
) -> Result<(), TypeEnd>
    requires few { AreFew program.old }
    requires notes { AreNotes program.old.declared notes.now }
    ensures notes { AreNotes program.new.declared notes.now }
    ensures same { OnErr result (program.new ≡ program.old) }
    ensures answers { Takes (merge_found program.old raw.now) program.new result }
{
    let replica = type_replica(alloc, program, notes, raw)?;
    program.replicas.push(replica)?;
    Ok(())
}

/// The next replica, whose state is right, or the first fault of its first value and its merge. It takes memory.
fn type_replica(
    alloc: Global,
    program: &Program,
    notes: &Items<PropSet>,
    raw: &RawReplica,
) -> Result<ReplicaDef, TypeEnd>
    requires few { AreFew program.now }
    requires notes { AreNotes program.now.declared notes.now }
    ensures { AnswersAs (with_replica program.now) (merge_found program.now raw.now) result }
{
    let state = type_ty(alloc, program, 0, &raw.state)?;
    let funs = Items::new(alloc);
    let vars = Items::new(alloc);
    let env = Env {
        alloc,
        program,
        place: Stand::Behind(program.declared.len() as u32),
        tparams: 0,
        funs: &funs,
        vars: &vars,
        known: notes,
    };
    let mut bound = Items::new(alloc);
    let from = type_part(&env, &raw.from, &state, &mut bound)?;
    type_merge(&env, raw, state, from)
}

/// The replica with this state and first value, or the first fault of its merge: its counts, its types, its functions, and
/// that it joins. It takes memory.
fn type_merge(env: &Env<'_>, raw: &RawReplica, state: Ty, from: Term) -> Result<ReplicaDef, TypeEnd>
    requires few { length env.now.program.now.declared < 2 ^ 32 }
    requires stands { env_of env.now ≡ replica_env env.now.program.now }
    ensures { AnswersAs (with_replica env.now.program.now) (merge_rest env.now.program.now raw.now state from) result }
{
    let alloc = env.alloc;
    let program = env.program;
    need(has_counts(program, raw), TypeKind::Arity, raw.merge.at)?;
    let types = type_tys(alloc, program, 0, &raw.merge.types)?;
    let funs = type_given(env, raw, &types)?;
    let joins = is_join(env, raw.merge.head, &types, &state);
    need(joins, TypeKind::NotJoin, raw.merge.at)?;
    Ok(ReplicaDef {
        state,
        from,
        merge: Fun {
            head: raw.merge.head,
            types,
        },
        funs,
        seen: program.declared.len() as u32,
    })
}

/// Whether the merge is there, and is given as many types and functions as it takes. It takes no memory.
#[tactic(auto, unfolding(crate::specs::NextOutcome::has_merge_counts))]
fn has_counts(program: &Program, raw: &RawReplica) -> bool
    ensures { result ≡ has_merge_counts program.now raw.now }
{
    let types = raw.merge.types.len();
    let functions = raw.funs.len();
    match raw.merge.head {
        Head::Def(number) => match at(program.defs.as_slice(), number as usize) {
            Some(def) => def.tparams as usize == types && def.funs.len() == functions,
            None => false,
        },
        Head::Wle | Head::Weq => 0 == types && 0 == functions,
        Head::FnVar(_) => false,
    }
}

/// The functions that the merge is given, at these types, or their first fault. It takes memory.
fn type_given(env: &Env<'_>, raw: &RawReplica, types: &Items<Ty>) -> Result<Items<Fun>, TypeEnd>
    requires { env_of env.now ≡ replica_env env.now.program.now }
    ensures { (s : Signature) → signature_of (env_of env.now) raw.now.merge.head types.now ≡ Some s → Answers (arguments_found (env_of env.now) raw.now.funs s.takes) result }
{
    let none = Items::new(env.alloc);
    match raw.merge.head {
        Head::Def(number) => match at(env.program.defs.as_slice(), number as usize) {
            Some(def) => type_arguments(env, &raw.funs, &def.funs, types),
            None => type_arguments(env, &raw.funs, &none, types),
        },
        Head::Wle | Head::Weq | Head::FnVar(_) => type_arguments(env, &raw.funs, &none, types),
    }
}

/// Whether what is called takes two states and gives one, at these types, and is known to be commutative, associative and
/// idempotent. It takes no memory.
fn is_join(env: &Env<'_>, head: Head, types: &Items<Ty>, state: &Ty) -> bool
    requires { env_of env.now ≡ replica_env env.now.program.now }
    ensures { (s : Signature) → signature_of (env_of env.now) head types.now ≡ Some s → result ≡ is_joining env.now.program.now head s state.now }
{
    match head {
        Head::Def(number) => match at(env.program.defs.as_slice(), number as usize) {
            Some(def) => joins_states(def, types, state) && knows_all(env, head, JOINING),
            None => false,
        },
        Head::Wle | Head::Weq | Head::FnVar(_) => false,
    }
}

/// Whether the definition takes two states and gives one, at these types. It takes no memory.
fn joins_states(def: &Def, types: &Items<Ty>, state: &Ty) -> bool
    ensures { result ≡ (same_all (tys_instance types.now def.now.params) (state.now ∷ state.now ∷ []) && same (ty_instance types.now def.now.result) state.now) }
{
    let [first, second] = def.params.as_slice() else {
        return false;
    };
    if !is_instance(state, first, types) {
        return false;
    }
    if !is_instance(state, second, types) {
        return false;
    }
    is_instance(state, &def.result, types)
}
