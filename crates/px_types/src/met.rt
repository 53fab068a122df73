//! Which types are within the limits of types that are met in checking. Nothing here takes memory, and no type is made.
ghost use Rattle.std.specs.Prelude.{◌≡◌, ℕ};
ghost use Rattle.px_terms.specs.declared.types.Ty.TheVariants as kinds;
ghost use Rattle.px_terms.specs.Types.{ty_instance, tys_instance};
ghost use Rattle.px_types.specs.Envs.{env_of};
ghost use Rattle.px_types.specs.Outcome.{is_met, is_function_met};

use crate::env::Env;
use px_terms::limits::{TYPE_DEPTH, TYPE_NODES};
use px_terms::{Ty, depth_of_tys, instance_is_within, size_of_tys, ty_is_within};
use sqlite_items::Items;

/// Whether the type is within the limits that hold at the place.
pub(crate) fn ty_met(env: &Env<'_>, ty: &Ty) -> bool
    ensures { result ≡ is_met (env_of env.now).place ty.now }
{
    ty_is_within(ty, TYPE_NODES, TYPE_DEPTH)
}

/// Whether the type with these types put in is.
pub(crate) fn instance_met(env: &Env<'_>, ty: &Ty, types: &Items<Ty>) -> bool
    ensures { result ≡ is_met (env_of env.now).place (ty_instance types.now ty.now) }
{
    instance_is_within(ty, types.as_slice(), TYPE_NODES, TYPE_DEPTH)
}

/// Whether a datatype's type with these arguments is.
pub(crate) fn con_met(env: &Env<'_>, args: &Items<Ty>) -> bool
    ensures { (d : ℕ) → result ≡ is_met (env_of env.now).place (kinds.Con d args.now) }
{
    let nodes = size_of_tys(args.as_slice());
    let depth = depth_of_tys(args.as_slice());
    nodes < TYPE_NODES && depth < TYPE_DEPTH
}

/// Whether each type of a function type, with these types put in, is.
pub(crate) fn function_met(
    env: &Env<'_>,
    params: &Items<Ty>,
    result_type: &Ty,
    types: &Items<Ty>,
) -> bool
    ensures { result ≡ is_function_met (env_of env.now) (tys_instance types.now params.now) (ty_instance types.now result_type.now) }
{
    if !instance_met(env, result_type, types) {
        return false;
    }
    for ty in params.as_slice() {
        if !instance_met(env, ty, types) {
            return false;
        }
    }
    true
}
