//! Function arguments.
ghost use Rattle.std.specs.Prelude.{map};
ghost use Rattle.px_terms.specs.Types.{fn_type_instance};
ghost use Rattle.px_types.specs.Answers.{Answers};
ghost use Rattle.px_types.specs.Envs.{env_of, wanted_of};
ghost use Rattle.px_types.specs.Outcome.{argument_found, arguments_found};

use crate::alike::is_alike;
use crate::ends::{TypeEnd, TypeKind};
use crate::env::{Env, Wanted};
use crate::heads::{built_in, can_stand, find_called};
use crate::met::function_met;
use crate::said::knows_all;
use crate::types::{need, type_tys};
use px_terms::{FnType, Fun, RawFun, Ty};
use sqlite_items::{Items, at};

/// A function argument where one of this type is wanted, or its first fault. It takes memory.
#[tactic(auto, unfolding(crate::specs::Outcome::argument_found, crate::specs::Outcomes::onward, crate::specs::Outcomes::there))]
pub(crate) fn type_argument(
    env: &Env<'_>,
    raw: &RawFun,
    wanted: &Wanted<'_>,
) -> Result<Fun, TypeEnd>
    ensures { Answers (argument_found (env_of env.now) raw.now (wanted_of wanted.now)) result }
{
    let function = wanted.fun;
    let is_met = function_met(env, &function.params, &function.result, wanted.types);
    need(is_met, TypeKind::Oversize, raw.at)?;
    need(can_stand(env, raw), TypeKind::Arity, raw.at)?;
    let types = type_tys(env.alloc, env.program, env.tparams, &raw.types)?;
    let comparison = built_in(env.alloc)?;
    let Some(own) = find_called(env, raw.head, &types, &comparison) else {
        return Err(TypeEnd::Fault {
            kind: TypeKind::Arity,
            at: raw.at,
        });
    };
    let is_own_met = function_met(env, own.params, own.result, own.types);
    need(is_own_met, TypeKind::Oversize, raw.at)?;
    need(is_alike(&own, wanted), TypeKind::Mismatch, raw.at)?;
    let knows = knows_all(env, raw.head, function.props);
    need(knows, TypeKind::LacksProperty, raw.at)?;
    Ok(Fun {
        head: raw.head,
        types,
    })
}

/// Function arguments where those of these types, with the types put in, are wanted, or their first fault. It takes memory.
pub(crate) fn type_arguments(
    env: &Env<'_>,
    raws: &Items<RawFun>,
    takes: &Items<FnType>,
    types: &Items<Ty>,
) -> Result<Items<Fun>, TypeEnd>
    ensures { Answers (arguments_found (env_of env.now) raws.now (map (fn_type_instance types.now) takes.now)) result }
{
    let mut funs = Items::new(env.alloc);
    for (number, raw) in raws.as_slice().iter().enumerate() {
        let Some(fun) = at(takes.as_slice(), number) else {
            return Ok(funs);
        };
        funs.push(type_argument(env, raw, &Wanted { fun, types })?)?;
    }
    Ok(funs)
}
