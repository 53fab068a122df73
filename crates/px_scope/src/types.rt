//! Types.
ghost use Rattle.std.specs.Prelude.{◌≡◌, Some, map, string_bytes};
ghost use Rattle.px_parser.specs.declared.surface.SType.{out-SType};
ghost use Rattle.px_scope.specs.Standing.{type_of};
ghost use Rattle.px_scope.specs.Rules.{lone_name, are_parameters, type_fault};
ghost use Rattle.px_scope.specs.Uses.{type_uses, types_uses};
ghost use Rattle.px_scope.specs.Numbers.{IsType, AreTypes};
ghost use Rattle.px_scope.specs.Answers.{Resolves, Finds};

use crate::ends::{ScopeEnd, ScopeKind};
use crate::globals::Globals;
use crate::later::declares_type;
use crate::locals::TypeLocals;
use crate::lookups::{absent_kind, fault, is_number};
use px_base::{RawTy, RawTyKind};
use px_parser::{Item, SType};
use sqlite_items::Items;
use std::alloc::Global;

/// The written type that a type is, by what its name stands for, and its arguments'. Its calls nest as deep as the type.
#[cycle(types)]
pub(crate) fn resolve_type(
    alloc: Global,
    text: &[Item],
    globals: &Globals,
    types: &TypeLocals,
    ty: &SType,
) -> Result<RawTy, ScopeEnd>
    ensures { Resolves (type_uses text.now globals.now types.now ty.now) (IsType globals.now types.now ty.now) result }
{
    let kind = find_type(text, globals, types, ty)?;
    let args = resolve_types(alloc, text, globals, types, ty.args.as_slice())?;
    Ok(RawTy {
        at: ty.name.at,
        kind,
        args,
    })
}

/// The written types that types are.
#[cycle(types)]
pub(crate) fn resolve_types(
    alloc: Global,
    text: &[Item],
    globals: &Globals,
    types: &TypeLocals,
    tys: &[SType],
) -> Result<Items<RawTy>, ScopeEnd>
    ensures { Resolves (types_uses text.now globals.now types.now tys.now) (AreTypes globals.now types.now tys.now) result }
{
    let mut resolved = Items::new(alloc);
    for ty in tys {
        resolved.push(resolve_type(alloc, text, globals, types, ty)?)?;
    }
    Ok(resolved)
}

/// What a type's name stands for.
fn find_type(
    text: &[Item],
    globals: &Globals,
    types: &TypeLocals,
    ty: &SType,
) -> Result<RawTyKind, ScopeEnd>
    ensures { Finds (out-SType ty.now).name.at (type_fault text.now globals.now types.now (out-SType ty.now).name.text (map lone_name (out-SType ty.now).args)) (λ kind. type_of globals.now types.now (out-SType ty.now).name.text ≡ Some kind) result }
{
    let name = ty.name.text.as_str();
    match type_kind(globals, types, name) {
        None => {
            let kind = absent_kind(declares_type(text, name));
            Err(fault(kind, ty.name.at))
        }
        Some(RawTyKind::Con(number)) => {
            if is_number(types.own, number)
                && !are_own_parameters(ty.args.as_slice(), types.parameters.texts())
            {
                return Err(fault(ScopeKind::WrongPlace, ty.name.at));
            }
            Ok(RawTyKind::Con(number))
        }
        Some(kind) => Ok(kind),
    }
}

/// What a type's name stands for, where it is declared.
fn type_kind(globals: &Globals, types: &TypeLocals, name: &str) -> Option<RawTyKind>
    ensures { result ≡ type_of globals.now types.now name.now }
{
    if let Some(number) = types.parameters.number(name) {
        return Some(RawTyKind::Var(number));
    }
    if name == "Word" {
        return Some(RawTyKind::Word);
    }
    match globals.datatypes.number(name) {
        Some(number) => Some(RawTyKind::Con(number)),
        None => None,
    }
}

/// Whether the types are these type parameters, in order.
fn are_own_parameters(tys: &[SType], parameters: &[String]) -> bool
    ensures { result ≡ are_parameters (map lone_name tys.now) (map string_bytes parameters.now) }
{
    let mut left = parameters;
    for ty in tys {
        let [parameter, others @ ..] = left else {
            return false;
        };
        if !ty.args.is_empty() || ty.name.text.as_str() != parameter.as_str() {
            return false;
        }
        left = others;
    }
    left.is_empty()
}
