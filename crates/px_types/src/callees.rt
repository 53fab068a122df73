//! What is called or passed, with its types put in, and the functions that are passed to it.
ghost use Rattle.std.specs.Prelude.{◌≡◌, map};
ghost use Rattle.px_terms.specs.Types.{fn_type_instance};
ghost use Rattle.px_types.specs.Bounds.{here};
ghost use Rattle.px_types.specs.Callees.{FindsCallee};
ghost use Rattle.px_types.specs.Outcome.{signature_of};
ghost use Rattle.px_types.specs.TypeOf as found;
ghost use Rattle.px_types.specs.TypeOf.{Finds};

use crate::alike::is_alike;
use crate::env::Wanted;
use crate::formed::are_types;
use crate::heads::Called;
use crate::knowledge::knows_all;
use crate::scope::Scope;
use crate::typings::NotTyped;
use px_terms::{FnType, Fun, Head, Ty};
use sqlite_items::{Items, at};

/// What is called, at its types. It takes no memory.
#[tactic(auto, unfolding(crate::specs::TypeOf::callee_found, crate::specs::TypeOf::followed, crate::specs::TypeOf::when))]
pub(crate) fn called_by<'t, 'p: 't>(scope: &Scope<'p>, fun: &'t Fun) -> Result<Called<'t>, NotTyped>
    ensures { FindsCallee (found.callee_found (here scope.now) fun.now) result }
{
    if !has_types(scope, fun) {
        return Err(NotTyped::IllTyped);
    }
    signature(scope, fun.head, &fun.types)
}

/// What is called, at these types, which are as many as it takes. It takes no memory.
#[tactic(auto, unfolding(crate::specs::Outcome::signature_of))]
fn signature<'t, 'p: 't>(
    scope: &Scope<'p>,
    head: Head,
    types: &'t Items<Ty>,
) -> Result<Called<'t>, NotTyped>
    ensures { FindsCallee (signature_of (here scope.now) head types.now) result }
{
    let comparison = scope.comparison;
    match head {
        Head::Def(number) => match at(scope.program.defs.as_slice(), number as usize) {
            Some(def) => Ok(Called {
                takes: &def.funs,
                params: &def.params,
                result: &def.result,
                types,
            }),
            None => Err(NotTyped::IllTyped),
        },
        Head::Wle | Head::Weq => Ok(Called {
            takes: &comparison.takes,
            params: &comparison.params,
            result: &comparison.result,
            types: &comparison.types,
        }),
        Head::FnVar(number) => match at(scope.context.funs.as_slice(), number as usize) {
            Some(fun) => Ok(Called {
                takes: &comparison.takes,
                params: &fun.params,
                result: &fun.result,
                types: &comparison.types,
            }),
            None => Err(NotTyped::IllTyped),
        },
    }
}

/// Whether as many types are given as what is named takes, and they are types. It takes no memory.
#[tactic(auto, unfolding(crate::specs::TypeOf::has_types))]
fn has_types(scope: &Scope, fun: &Fun) -> bool
    ensures { result ≡ found.has_types (here scope.now) fun.now }
{
    has_type_count(scope, fun) && are_types(&fun.types, scope.program, scope.context.tparams)
}

/// Whether as many types are given as what is named takes. It takes no memory.
#[tactic(auto, unfolding(crate::specs::TypeOf::has_type_count))]
fn has_type_count(scope: &Scope, fun: &Fun) -> bool
    ensures { result ≡ found.has_type_count (here scope.now) fun.now }
{
    let given = fun.types.len();
    match fun.head {
        Head::Def(number) => match at(scope.program.defs.as_slice(), number as usize) {
            Some(def) => def.tparams as usize == given,
            None => false,
        },
        Head::Wle | Head::Weq => 0 == given,
        Head::FnVar(number) => match at(scope.context.funs.as_slice(), number as usize) {
            Some(_fun) => 0 == given,
            None => false,
        },
    }
}

/// Whether each function may stand where one of the type at its place is wanted, with these types put in, and there are as
/// many of both. It takes no memory.
pub(crate) fn arguments_have(
    scope: &Scope<'_>,
    funs: &Items<Fun>,
    takes: &Items<FnType>,
    types: &Items<Ty>,
) -> Result<(), NotTyped>
    ensures { Finds (found.arguments_fit (here scope.now) funs.now (map (fn_type_instance types.now) takes.now)) result }
{
    let given = funs.as_slice();
    let wanted = takes.as_slice();
    if given.len() != wanted.len() {
        return Err(NotTyped::IllTyped);
    }
    for index in 0..given.len() {
        argument_has(scope, &given[index], &wanted[index], types)?;
    }
    Ok(())
}

/// Whether the function may stand where one of this type is wanted, with these types put in. It takes no memory.
#[tactic(auto, unfolding(crate::specs::TypeOf::argument_fits, crate::specs::TypeOf::followed, crate::specs::TypeOf::when))]
fn argument_has(
    scope: &Scope<'_>,
    fun: &Fun,
    wanted: &FnType,
    types: &Items<Ty>,
) -> Result<(), NotTyped>
    ensures { Finds (found.argument_fits (here scope.now) fun.now (fn_type_instance types.now wanted.now)) result }
{
    let own = called_by(scope, fun)?;
    if !is_alike(&own, &Wanted { fun: wanted, types }) {
        return Err(NotTyped::IllTyped);
    }
    if !knows_all(scope, fun.head, wanted.props) {
        return Err(NotTyped::IllTyped);
    }
    Ok(())
}
