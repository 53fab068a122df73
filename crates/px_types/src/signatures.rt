//! What a declaration says of types and properties: function types, headings, and whether properties fit.
ghost use Rattle.std.specs.Prelude.{◌≡◌, ◌<◌, ◌^◌, drop, length};
ghost use Rattle.px_types.specs.Answers.{Answers};
ghost use Rattle.px_types.specs.NextOutcome.{assumed_found, fn_type_found, fn_types_found, heading_found, prop_found, props_found};

use crate::ends::{TypeEnd, TypeKind};
use crate::types::{need, type_ty, type_tys};
use px_props::{fits, set_of_written};
use px_terms::{Def, FnType, Head, Program, RawDef, RawFnType, RawProp, Term};
use sqlite_items::Items;
use std::alloc::Global;

/// The type of a function from a written one, over so many type parameters, or its first fault. It takes memory.
#[tactic(auto, unfolding(crate::specs::NextOutcome::fn_type_found, crate::specs::Outcomes::onward))]
fn type_fn_type(
    alloc: Global,
    program: &Program,
    tparams: u32,
    raw: &RawFnType,
) -> Result<FnType, TypeEnd>
    ensures { Answers (fn_type_found program.now tparams raw.now) result }
{
    let params = type_tys(alloc, program, tparams, &raw.params)?;
    let given = type_ty(alloc, program, tparams, &raw.result)?;
    Ok(FnType {
        params,
        result: given,
        props: set_of_written(raw.props.as_slice()),
    })
}

/// The types of functions from written ones, or their first fault. It takes memory.
pub(crate) fn type_fn_types(
    alloc: Global,
    program: &Program,
    tparams: u32,
    raws: &Items<RawFnType>,
) -> Result<Items<FnType>, TypeEnd>
    ensures { Answers (fn_types_found program.now tparams raws.now) result }
{
    let mut funs = Items::new(alloc);
    for raw in raws.as_slice() {
        funs.push(type_fn_type(alloc, program, tparams, raw)?)?;
    }
    Ok(funs)
}

/// The types of the next definition's signature, with a literal for its body, or their first fault. It takes memory.
pub(crate) fn type_heading(alloc: Global, program: &Program, raw: &RawDef) -> Result<Def, TypeEnd>
    requires { length program.now.declared < 2 ^ 32 }
    ensures { Answers (heading_found program.now raw.now) result }
{
    let funs = type_fn_types(alloc, program, raw.tparams, &raw.funs)?;
    let params = type_tys(alloc, program, raw.tparams, &raw.params)?;
    let given = type_ty(alloc, program, raw.tparams, &raw.result)?;
    Ok(Def {
        tparams: raw.tparams,
        funs,
        params,
        result: given,
        body: Term::Lit(0),
        seen: program.declared.len() as u32,
    })
}

/// Nothing, where the property fits what is named; else the fault that it does not. It takes no memory.
fn check_prop(
    program: &Program,
    head: Head,
    funs: &[FnType],
    written: RawProp,
) -> Result<(), TypeEnd>
    ensures { Answers (prop_found program.now funs.now head written) result }
{
    let fit = fits(program, head, funs, written.prop);
    need(fit, TypeKind::PropertyShape, written.at)
}

/// Nothing, where each property fits what is named; else the fault of the first that does not. `funs` are the types of the
/// function variables in scope. It takes no memory.
pub(crate) fn check_props(
    program: &Program,
    head: Head,
    funs: &[FnType],
    props: &[RawProp],
) -> Result<(), TypeEnd>
    ensures { Answers (props_found program.now funs.now head props.now) result }
{
    for written in props {
        check_prop(program, head, funs, *written)?;
    }
    Ok(())
}

/// Nothing, where each property that is assumed of a function variable fits its type; else the fault of the first that does
/// not. Each variable is looked at as the first of those from it on, so their number needs no bound. It takes no memory.
pub(crate) fn check_assumed(
    program: &Program,
    funs: &[FnType],
    raws: &[RawFnType],
) -> Result<(), TypeEnd>
    ensures { Answers (assumed_found program.now funs.now 0 raws.now) result }
{
    let mut rest = funs;
    for raw in raws {
        check_props(program, Head::FnVar(0), rest, raw.props.as_slice())?;
        rest = behind_first(rest);
    }
    Ok(())
}

/// The function types behind the first.
fn behind_first(funs: &[FnType]) -> &[FnType]
    ensures { result.now ≡ drop 1 funs.now }
{
    match funs {
        [] => funs,
        [_, rest @ ..] => rest,
    }
}
