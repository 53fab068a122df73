//! What is called or passed: what it takes and gives, and where it may be named.
ghost use Rattle.std.specs.Prelude.{◌≡◌, ◌↔◌, IsTrue, IfOk};
ghost use Rattle.std.specs.Option.{option_map};
ghost use Rattle.px_terms.specs.declared.types.Ty.TheVariants as kinds;
ghost use Rattle.px_terms.specs.Types.{own_types};
ghost use Rattle.px_types.specs.Envs.{env_of, counts_in, comparing, called_in};
ghost use Rattle.px_types.specs.Faults.{counts_of};
ghost use Rattle.px_types.specs.Outcome.{are_own, has_argument_count, may_call, may_pass, same_all, signature_of, stands_before};

use crate::env::{Env, Stand};
use px_terms::{FnType, Head, NoMemory, RawFun, Ty};
use sqlite_items::{Items, at};
use std::alloc::Global;

/// How many types, functions and values are taken.
#[derive(Clone, Copy)]
pub(crate) struct Taken {
    pub types: usize,
    pub functions: usize,
    pub values: usize,
}

/// What a built-in takes and gives: it compares two words.
#[derive(Drop)]
pub(crate) struct BuiltIn {
    pub takes: Items<FnType>,
    pub params: Items<Ty>,
    pub result: Ty,
    pub types: Items<Ty>,
}

/// What is called: the functions and the values that it takes and what it gives, where these types are put in for its type
/// variables.
#[derive(Clone, Copy)]
pub(crate) struct Called<'a> {
    pub takes: &'a Items<FnType>,
    pub params: &'a Items<Ty>,
    pub result: &'a Ty,
    pub types: &'a Items<Ty>,
}

/// How many types, functions and values what is called takes; nothing where it names what is not there. It takes no memory.
pub(crate) fn counts_at(env: &Env<'_>, head: Head) -> Option<Taken>
    ensures { option_map counts_in result ≡ counts_of (env_of env.now) head }
{
    match head {
        Head::Def(number) => {
            let def = at(env.program.defs.as_slice(), number as usize)?;
            Some(Taken {
                types: def.tparams as usize,
                functions: def.funs.len(),
                values: def.params.len(),
            })
        }
        Head::Wle | Head::Weq => Some(Taken {
            types: 0,
            functions: 0,
            values: 2,
        }),
        Head::FnVar(number) => {
            let fun = at(env.funs.as_slice(), number as usize)?;
            Some(Taken {
                types: 0,
                functions: 0,
                values: fun.params.len(),
            })
        }
    }
}

/// What a built-in takes and gives. It takes memory, and fails only where there is none.
pub(crate) fn built_in(alloc: Global) -> Result<BuiltIn, NoMemory>
    ensures { IfOk result (λ made. made ≡ comparing) }
{
    let mut params = Items::new(alloc);
    params.push(Ty::Word)?;
    params.push(Ty::Word)?;
    Ok(BuiltIn {
        takes: Items::new(alloc),
        params,
        result: Ty::Con {
            datatype: 0,
            args: Items::new(alloc),
        },
        types: Items::new(alloc),
    })
}

/// What is called, at these types; nothing where it names what is not there. It takes no memory.
#[tactic(auto, unfolding(crate::specs::Outcome::signature_of))]
pub(crate) fn find_called<'t, 'p: 't>(
    env: &Env<'p>,
    head: Head,
    types: &'t Items<Ty>,
    comparison: &'t BuiltIn,
) -> Option<Called<'t>>
    requires { comparison.now ≡ comparing }
    ensures { option_map called_in result ≡ signature_of (env_of env.now) head types.now }
{
    match head {
        Head::Def(number) => {
            let def = at(env.program.defs.as_slice(), number as usize)?;
            Some(Called {
                takes: &def.funs,
                params: &def.params,
                result: &def.result,
                types,
            })
        }
        Head::Wle | Head::Weq => Some(Called {
            takes: &comparison.takes,
            params: &comparison.params,
            result: &comparison.result,
            types: &comparison.types,
        }),
        Head::FnVar(number) => {
            let fun = at(env.funs.as_slice(), number as usize)?;
            Some(Called {
                takes: &comparison.takes,
                params: &fun.params,
                result: &fun.result,
                types: &comparison.types,
            })
        }
    }
}

/// Whether the definition stands behind at most so many obligations. It takes no memory.
fn is_behind(env: &Env<'_>, number: u32, count: u32) -> bool
    ensures { result ≡ stands_before (env_of env.now).program number count }
{
    match at(env.program.defs.as_slice(), number as usize) {
        Some(def) => def.seen <= count,
        None => false,
    }
}

/// Whether the types are so many type parameters in order. It takes no memory.
fn are_parameters(types: &Items<Ty>, count: u32) -> bool
    ensures { result ≡ same_all types.now (own_types count) }
{
    if types.len() != count as usize {
        return false;
    }
    for (number, ty) in types.as_slice().iter().enumerate() {
        if !is_parameter(ty, number) {
            return false;
        }
    }
    true
}

/// Whether the type is the type parameter of this number.
fn is_parameter(ty: &Ty, number: usize) -> bool
    ensures { IsTrue result ↔ (ty.now ≡ kinds.Var number) }
{
    match ty {
        Ty::Var(own) => *own as usize == number,
        Ty::Word | Ty::Con { .. } => false,
    }
}

/// Whether the types are the definition's own type parameters. It takes no memory.
fn are_its_own(env: &Env<'_>, number: u32, types: &Items<Ty>) -> bool
    ensures { result ≡ are_own (env_of env.now).program number types.now }
{
    match at(env.program.defs.as_slice(), number as usize) {
        Some(def) => are_parameters(types, def.tparams),
        None => false,
    }
}

/// Whether the function may be called at the place. It takes no memory.
pub(crate) fn can_call(env: &Env<'_>, head: Head, types: &Items<Ty>) -> bool
    ensures { result ≡ may_call (env_of env.now).program (env_of env.now).place head types.now }
{
    match head {
        Head::Def(number) => match env.place {
            Stand::Body(own) => number < own || number == own && are_its_own(env, own, types),
            Stand::Behind(count) => is_behind(env, number, count),
        },
        Head::Wle | Head::Weq | Head::FnVar(_) => true,
    }
}

/// Whether the function may be passed at the place. It takes no memory.
fn can_pass(env: &Env<'_>, head: Head) -> bool
    ensures { result ≡ may_pass (env_of env.now).program (env_of env.now).place head }
{
    match head {
        Head::Def(number) => match env.place {
            Stand::Body(own) => number < own,
            Stand::Behind(count) => is_behind(env, number, count),
        },
        Head::Wle | Head::Weq | Head::FnVar(_) => true,
    }
}

/// Whether the function may be passed at the place, and has as many types as it takes. It takes no memory.
pub(crate) fn can_stand(env: &Env<'_>, raw: &RawFun) -> bool
    ensures { result ≡ has_argument_count (env_of env.now) raw.now }
{
    if !can_pass(env, raw.head) {
        return false;
    }
    match counts_at(env, raw.head) {
        Some(taken) => taken.types == raw.types.len(),
        None => false,
    }
}
