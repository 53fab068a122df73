//! Type parameters and parameters.
ghost use Rattle.std.specs.Prelude.{◌≡◌, ◌<◌, ◌+◌, [], ◌∷◌, ◌++◌, OnOk};
ghost use Rattle.std.specs.List.{fold};
ghost use Rattle.px_scope.specs.Rules.{new_value_fault, new_function_fault};
ghost use Rattle.px_scope.specs.Declaring.{with_type_parameter, with_parameter};
ghost use Rattle.px_scope.specs.ItemUses.{type_parameters_uses, fn_type_uses, parameters_uses};
ghost use Rattle.px_scope.specs.Programs.{IsFnType};
ghost use Rattle.px_scope.specs.Answers.{Resolves, Finds, AreBoth};

use crate::ends::{ScopeEnd, ScopeKind};
use crate::globals::Globals;
use crate::locals::{Locals, TypeLocals};
use crate::lookups::fault;
use crate::properties::{claim, copy_props};
use crate::types::{resolve_type, resolve_types};
use px_base::{RawFnType, RawTy};
use px_parser::{Item, Name, SFnType, SParam, SParamKind};
use sqlite_items::Items;
use std::alloc::Global;

/// Parameters: the functions and the values.
#[derive(Drop)]
pub(crate) struct Parameters {
    pub(crate) funs: Items<RawFnType>,
    pub(crate) values: Items<RawTy>,
}

/// Makes type parameters local, each of which has a new name.
pub(crate) fn add_type_parameters(
    alloc: Global,
    globals: &Globals,
    types: &mut TypeLocals,
    names: &[Name],
) -> Result<(), ScopeEnd>
    ensures { Resolves (type_parameters_uses globals.now types.old names.now) (λ _. types.new ≡ fold with_type_parameter types.old names.now) result }
{
    for name in names {
        let text = name.text.as_str();
        if globals.has_type(text) || !types.parameters.add(alloc, text)? {
            return Err(fault(ScopeKind::Repeated, name.at));
        }
    }
    Ok(())
}

/// Makes parameters local, and answers their types. A parameter has a new name, and a function stands before the values.
pub(crate) fn resolve_parameters(
    alloc: Global,
    text: &[Item],
    globals: &Globals,
    locals: &mut Locals,
    params: &[SParam],
) -> Result<Parameters, ScopeEnd>
    requires functions { locals.old.functions ≡ 0 }
    requires values { locals.old.values ≡ 0 }
    ensures resolves { Resolves (parameters_uses text.now globals.now locals.old params.now) (AreBoth globals.now locals.old.types params.now) result }
    ensures locals { OnOk result (locals.new ≡ fold with_parameter locals.old params.now) }
{
    let mut funs = Items::new(alloc);
    let mut values = Items::new(alloc);
    for param in params {
        match &param.kind {
            SParamKind::Function(function) => {
                add_function(alloc, locals, &param.name)?;
                funs.push(resolve_fn_type(alloc, text, globals, &locals.types, function)?)?;
            }
            SParamKind::Value(ty) => {
                add_value(alloc, locals, &param.name)?;
                values.push(resolve_type(alloc, text, globals, &locals.types, ty)?)?;
            }
        }
    }
    Ok(Parameters { funs, values })
}

/// Makes a function parameter local.
fn add_function(alloc: Global, locals: &mut Locals, name: &Name) -> Result<(), ScopeEnd>
    requires { locals.old.functions < usize.MAX }
    ensures { Finds name.now.at (new_function_fault locals.old name.now.text) (λ _. locals.new ≡ record locals.old { names = locals.old.names ++ name.now.text ∷ []; functions = locals.old.functions + 1 }) result }
{
    if locals.names.has(name.text.as_str()) {
        return Err(fault(ScopeKind::Repeated, name.at));
    }
    if locals.values > 0 {
        return Err(fault(ScopeKind::WrongPlace, name.at));
    }
    locals.names.add(alloc, name.text.as_str())?;
    locals.functions += 1;
    Ok(())
}

/// Makes a data parameter local.
fn add_value(alloc: Global, locals: &mut Locals, name: &Name) -> Result<(), ScopeEnd>
    requires { locals.old.values < usize.MAX }
    ensures { Finds name.now.at (new_value_fault locals.old name.now.text) (λ _. locals.new ≡ record locals.old { names = locals.old.names ++ name.now.text ∷ []; values = locals.old.values + 1 }) result }
{
    if !locals.names.add(alloc, name.text.as_str())? {
        return Err(fault(ScopeKind::Repeated, name.at));
    }
    locals.values += 1;
    Ok(())
}

/// The written function type that one is.
fn resolve_fn_type(
    alloc: Global,
    text: &[Item],
    globals: &Globals,
    types: &TypeLocals,
    function: &SFnType,
) -> Result<RawFnType, ScopeEnd>
    ensures { Resolves (fn_type_uses text.now globals.now types.now function.now) (IsFnType globals.now types.now function.now) result }
{
    let params = resolve_types(alloc, text, globals, types, function.params.as_slice())?;
    let result = resolve_type(alloc, text, globals, types, &function.result)?;
    claim(&mut Items::new(alloc), function.props.as_slice())?;
    let props = copy_props(alloc, function.props.as_slice())?;
    Ok(RawFnType {
        params,
        result,
        props,
    })
}
