//! Expressions.
ghost use Rattle.std.specs.Prelude.{◌≡◌, drop, map, OnOk};
ghost use Rattle.std.specs.List.{flat_map};
ghost use Rattle.px_parser.specs.declared.surface.Name.{Name as AnyName};
ghost use Rattle.px_parser.specs.declared.surface.SExpr.{SExpr as Expression};
ghost use Rattle.px_parser.specs.declared.surface.SArm.{SArm as AnyArm};
ghost use Rattle.px_scope.specs.Uses.{Data, From, expr_uses, arm_uses, variables_uses, bind};
ghost use Rattle.px_scope.specs.Numbers.{IsTerm, AreTerms, IsArm, AreArms};
ghost use Rattle.px_scope.specs.Answers.{Resolves};

use crate::ends::{ScopeEnd, ScopeKind};
use crate::functions::resolve_arguments;
use crate::globals::Globals;
use crate::locals::Locals;
use crate::lookups::{
    Variable, fault, find_called, find_constructor, find_variable, lower_in_from,
};
use crate::types::resolve_types;
use px_base::{RawArm, RawFun, RawKind, RawTerm};
use px_parser::{Item, Name, SArm, SExpr, SExprKind};
use sqlite_items::{Boxed, Items};
use std::alloc::Global;

/// The written term that an expression is where data is wanted. Its calls nest as deep as the expression. What is local
/// is as it was, unless there is a fault.
#[cycle(terms)]
pub(crate) fn resolve_term(
    alloc: Global,
    text: &[Item],
    globals: &Globals,
    locals: &mut Locals,
    expr: &SExpr,
) -> Result<RawTerm, ScopeEnd>
    ensures resolves { Resolves (expr_uses text.now globals.now expr.now Data locals.old) (IsTerm globals.now locals.old expr.now) result }
    ensures locals { OnOk result (locals.new ≡ locals.old) }
{
    match &expr.kind {
        SExprKind::Number(number) => Ok(RawTerm {
            at: expr.at,
            kind: RawKind::Lit(*number),
        }),
        SExprKind::Upper {
            name,
            types,
            fields,
        } => {
            let con = find_constructor(text, globals, name)?;
            let types = resolve_types(alloc, text, globals, &locals.types, types.as_slice())?;
            let fields = resolve_terms(alloc, text, globals, locals, 0, fields.as_slice())?;
            Ok(RawTerm {
                at: expr.at,
                kind: RawKind::Con {
                    datatype: con.datatype,
                    con: con.number,
                    types,
                    fields,
                },
            })
        }
        SExprKind::Lower { name, types, args } => match args {
            None => {
                let variable = find_variable(text, globals, locals, name)?;
                let types = resolve_types(alloc, text, globals, &locals.types, types.as_slice())?;
                let kind = match variable {
                    Variable::Value(number) => RawKind::Free { number, types },
                    Variable::Pattern(number) => RawKind::Bound { number, types },
                };
                Ok(RawTerm { at: expr.at, kind })
            }
            Some(args) => {
                let called = find_called(text, globals, locals, name)?;
                let types = resolve_types(alloc, text, globals, &locals.types, types.as_slice())?;
                let funs = resolve_arguments(
                    alloc,
                    text,
                    globals,
                    locals,
                    args.as_slice(),
                    called.functions,
                )?;
                let args = resolve_terms(
                    alloc,
                    text,
                    globals,
                    locals,
                    called.functions,
                    args.as_slice(),
                )?;
                Ok(RawTerm {
                    at: expr.at,
                    kind: RawKind::Call {
                        fun: RawFun {
                            at: name.at,
                            head: called.head,
                            types,
                        },
                        funs,
                        args,
                    },
                })
            }
        },
        SExprKind::Match { on, arms } => {
            let on = resolve_term(alloc, text, globals, locals, on.get())?;
            let arms = resolve_arms(alloc, text, globals, locals, arms.as_slice())?;
            Ok(RawTerm {
                at: expr.at,
                kind: RawKind::Match {
                    on: Boxed::new(alloc, on)?,
                    arms,
                },
            })
        }
    }
}

/// The written terms that the expressions after the first so many are.
#[cycle(terms)]
fn resolve_terms(
    alloc: Global,
    text: &[Item],
    globals: &Globals,
    locals: &mut Locals,
    skipped: usize,
    exprs: &[SExpr],
) -> Result<Items<RawTerm>, ScopeEnd>
    ensures resolves { Resolves (flat_map (λ (e : Expression). expr_uses text.now globals.now e Data locals.old) (drop skipped exprs.now)) (AreTerms globals.now locals.old (drop skipped exprs.now)) result }
    ensures locals { OnOk result (locals.new ≡ locals.old) }
{
    let mut terms = Items::new(alloc);
    for expr in &exprs[skipped.min(exprs.len())..] {
        terms.push(resolve_term(alloc, text, globals, locals, expr)?)?;
    }
    Ok(terms)
}

/// The written arms that arms are.
#[cycle(terms)]
fn resolve_arms(
    alloc: Global,
    text: &[Item],
    globals: &Globals,
    locals: &mut Locals,
    arms: &[SArm],
) -> Result<Items<RawArm>, ScopeEnd>
    ensures resolves { Resolves (flat_map (λ (a : AnyArm). arm_uses text.now globals.now a locals.old) arms.now) (AreArms globals.now locals.old arms.now) result }
    ensures locals { OnOk result (locals.new ≡ locals.old) }
{
    let mut resolved = Items::new(alloc);
    for arm in arms {
        resolved.push(resolve_arm(alloc, text, globals, locals, arm)?)?;
    }
    Ok(resolved)
}

/// The written arm that an arm is.
#[cycle(terms)]
fn resolve_arm(
    alloc: Global,
    text: &[Item],
    globals: &Globals,
    locals: &mut Locals,
    arm: &SArm,
) -> Result<RawArm, ScopeEnd>
    ensures resolves { Resolves (arm_uses text.now globals.now arm.now locals.old) (IsArm globals.now locals.old arm.now) result }
    ensures locals { OnOk result (locals.new ≡ locals.old) }
{
    let con = find_constructor(text, globals, &arm.name)?;
    let outer = locals.names.len();
    let vars = bind_variables(alloc, locals, arm.vars.as_slice())?;
    let body = resolve_term(alloc, text, globals, locals, &arm.body)?;
    locals.names.truncate(outer);
    Ok(RawArm {
        at: arm.name.at,
        datatype: con.datatype,
        con: con.number,
        vars,
        body,
    })
}

/// Makes a pattern's variables local, and answers their places.
fn bind_variables(alloc: Global, locals: &mut Locals, vars: &[Name]) -> Result<Items<u32>, ScopeEnd>
    ensures resolves { Resolves (variables_uses locals.old vars.now) (λ places. places ≡ map (λ (v : AnyName). v.at) vars.now) result }
    ensures locals { OnOk result (locals.new ≡ bind locals.old vars.now) }
{
    let mut places = Items::new(alloc);
    for var in vars {
        if !locals.names.add(alloc, var.text.as_str())? {
            return Err(fault(ScopeKind::Repeated, var.at));
        }
        places.push(var.at)?;
    }
    Ok(places)
}

/// The written term that a part of a replica's first value is. Its calls nest as deep as the part.
#[cycle(parts)]
pub(crate) fn resolve_from(
    alloc: Global,
    text: &[Item],
    globals: &Globals,
    locals: &Locals,
    expr: &SExpr,
) -> Result<RawTerm, ScopeEnd>
    ensures { Resolves (expr_uses text.now globals.now expr.now From locals.now) (IsTerm globals.now locals.now expr.now) result }
{
    match &expr.kind {
        SExprKind::Number(number) => Ok(RawTerm {
            at: expr.at,
            kind: RawKind::Lit(*number),
        }),
        SExprKind::Upper {
            name,
            types,
            fields,
        } => {
            let con = find_constructor(text, globals, name)?;
            let types = resolve_types(alloc, text, globals, &locals.types, types.as_slice())?;
            let fields = resolve_parts(alloc, text, globals, locals, fields.as_slice())?;
            Ok(RawTerm {
                at: expr.at,
                kind: RawKind::Con {
                    datatype: con.datatype,
                    con: con.number,
                    types,
                    fields,
                },
            })
        }
        SExprKind::Lower { name, .. } => Err(lower_in_from(text, globals, name)),
        SExprKind::Match { .. } => Err(fault(ScopeKind::WrongPlace, expr.at)),
    }
}

/// The written terms that parts of a replica's first value are.
#[cycle(parts)]
fn resolve_parts(
    alloc: Global,
    text: &[Item],
    globals: &Globals,
    locals: &Locals,
    exprs: &[SExpr],
) -> Result<Items<RawTerm>, ScopeEnd>
    ensures { Resolves (flat_map (λ (e : Expression). expr_uses text.now globals.now e From locals.now) exprs.now) (AreTerms globals.now locals.now exprs.now) result }
{
    let mut terms = Items::new(alloc);
    for expr in exprs {
        terms.push(resolve_from(alloc, text, globals, locals, expr)?)?;
    }
    Ok(terms)
}
