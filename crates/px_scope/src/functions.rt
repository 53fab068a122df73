//! Functions in the places of arguments, and the function that merges.
ghost use Rattle.std.specs.Prelude.{◌≡◌, take};
ghost use Rattle.std.specs.List.{flat_map};
ghost use Rattle.px_parser.specs.declared.surface.SExpr.{SExpr as Expression};
ghost use Rattle.px_parser.specs.declared.surface.SExprKind.{out-SExprKind};
ghost use Rattle.px_scope.specs.Uses.{Function, expr_uses, function_uses};
ghost use Rattle.px_scope.specs.Numbers.{IsArgument, AreArguments, IsFunction, AreFunctions};
ghost use Rattle.px_scope.specs.ItemUses.{merge_uses};
ghost use Rattle.px_scope.specs.Standing.{nothing_local};
ghost use Rattle.px_scope.specs.Answers.{Resolves};

use crate::ends::{ScopeEnd, ScopeKind};
use crate::globals::Globals;
use crate::locals::Locals;
use crate::lookups::{constructor_as_function, fault, find_function, find_merge};
use crate::types::resolve_types;
use px_base::RawFun;
use px_parser::{Item, SExpr, SExprKind, SFun};
use sqlite_items::Items;
use std::alloc::Global;

/// The functions that the first expressions are, so many or all where there are fewer.
pub(crate) fn resolve_arguments(
    alloc: Global,
    text: &[Item],
    globals: &Globals,
    locals: &Locals,
    args: &[SExpr],
    count: usize,
) -> Result<Items<RawFun>, ScopeEnd>
    ensures { Resolves (flat_map (λ (e : Expression). expr_uses text.now globals.now e Function locals.now) (take count args.now)) (AreArguments globals.now locals.now (take count args.now)) result }
{
    let mut functions = Items::new(alloc);
    for arg in &args[..count.min(args.len())] {
        functions.push(resolve_argument(alloc, text, globals, locals, arg)?)?;
    }
    Ok(functions)
}

/// The function that an expression in an argument's place is.
fn resolve_argument(
    alloc: Global,
    text: &[Item],
    globals: &Globals,
    locals: &Locals,
    arg: &SExpr,
) -> Result<RawFun, ScopeEnd>
    ensures { Resolves (expr_uses text.now globals.now arg.now Function locals.now) (IsArgument globals.now locals.now (out-SExprKind arg.now.kind)) result }
{
    match &arg.kind {
        SExprKind::Lower { name, types, args } => {
            let head = find_function(text, globals, locals, name, args.is_some())?;
            let types = resolve_types(alloc, text, globals, &locals.types, types.as_slice())?;
            Ok(RawFun {
                at: name.at,
                head,
                types,
            })
        }
        SExprKind::Upper { name, .. } => Err(constructor_as_function(text, globals, name)),
        SExprKind::Number(_) => Err(fault(ScopeKind::WrongPlace, arg.at)),
        SExprKind::Match { .. } => Err(fault(ScopeKind::WrongPlace, arg.at)),
    }
}

/// The functions that a merge is on.
pub(crate) fn resolve_functions(
    alloc: Global,
    text: &[Item],
    globals: &Globals,
    locals: &Locals,
    funs: &[SFun],
) -> Result<Items<RawFun>, ScopeEnd>
    ensures { Resolves (flat_map (function_uses text.now globals.now locals.now) funs.now) (AreFunctions globals.now locals.now funs.now) result }
{
    let mut functions = Items::new(alloc);
    for fun in funs {
        functions.push(resolve_function(alloc, text, globals, locals, fun)?)?;
    }
    Ok(functions)
}

/// The function of this name.
fn resolve_function(
    alloc: Global,
    text: &[Item],
    globals: &Globals,
    locals: &Locals,
    fun: &SFun,
) -> Result<RawFun, ScopeEnd>
    ensures { Resolves (function_uses text.now globals.now locals.now fun.now) (IsFunction globals.now locals.now fun.now) result }
{
    let head = find_function(text, globals, locals, &fun.name, false)?;
    let types = resolve_types(alloc, text, globals, &locals.types, fun.args.as_slice())?;
    Ok(RawFun {
        at: fun.name.at,
        head,
        types,
    })
}

/// The function that merges.
pub(crate) fn resolve_merge(
    alloc: Global,
    text: &[Item],
    globals: &Globals,
    locals: &Locals,
    fun: &SFun,
) -> Result<RawFun, ScopeEnd>
    requires { locals.now ≡ nothing_local }
    ensures { Resolves (merge_uses text.now globals.now fun.now) (IsFunction globals.now locals.now fun.now) result }
{
    let head = find_merge(text, globals, &fun.name)?;
    let types = resolve_types(alloc, text, globals, &locals.types, fun.args.as_slice())?;
    Ok(RawFun {
        at: fun.name.at,
        head,
        types,
    })
}
