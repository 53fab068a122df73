//! The cases of a variable.
ghost use Rattle.std.specs.Prelude.{◌≡◌, ◌≢◌, ◌<◌, ◌^◌, ◌++◌, List, IfErr, IfOk, MatchOption, MatchResult, Err, None, Some, All, length, slice_get, slice_set};
ghost use Rattle.px_terms.specs.declared.types.Ty.{Ty as Kind};
ghost use Rattle.px_terms.specs.declared.sequent.Sequent.{Sequent as Child};
ghost use Rattle.px_terms.specs.Types.{tys_instance};
ghost use Rattle.px_terms.specs.Typing.{live};
ghost use Rattle.px_terms.specs.Sequents.{IsWithinLimits};
ghost use Rattle.px_terms.specs.Rows.{AreCases, case_of, cases_from};
ghost use Rattle.px_cases.specs.Ends.{IsOversized};

use crate::copies::{put_frame, vars_without};
use crate::ends::SplitEnd;
use crate::put_limits::is_small_put;
use crate::shapes::{
    Data, Shape, data_of, on_fresh_variables, push_fields, room_for_fields, shape_at,
};
use crate::small::are_small_types;
use px_descent::Checked;
use px_terms::{Context, NoMemory, Sequent, Ty, copy_fn_types, put_equations};
use sqlite_items::{Items, at};
use std::alloc::Global;

/// The cases of the variable, a sequent for each constructor in order. NotData exactly where the variable is not live, or its
/// type is no datatype of the program; Oversize exactly where a child would be over the limits. It takes memory for the
/// children.
pub fn split_variable(
    alloc: Global,
    checked: &Checked,
    sequent: &Sequent,
    variable: u32,
) -> Result<Items<Sequent>, SplitEnd>
    ensures ok { IfOk result (λ children. AreCases checked.now sequent.now variable children × All IsWithinLimits children) }
    // Where there are cases within the limits, they are the answer, besides want of memory.
    ensures only { (children : List Child) → AreCases checked.now sequent.now variable children → All IsWithinLimits children → MatchResult result (λ found. found ≡ children) (λ end. end ≡ SplitEnd.NoMemory) }
    ensures not_data { result ≡ Err SplitEnd.NotData → (children : List Child) → ¬ AreCases checked.now sequent.now variable children }
    ensures oversize { result ≡ Err SplitEnd.Oversize → (children : List Child) × AreCases checked.now sequent.now variable children × ¬ All IsWithinLimits children }
    ensures no_other { (result ≢ Err SplitEnd.IllTyped) × (result ≢ Err SplitEnd.NoSuchFact) × (result ≢ Err SplitEnd.NotSameHead) }
{
    let Some(ty) = live_type(sequent, variable) else {
        return Err(SplitEnd::NotData);
    };
    let Some(family) = data_of(checked.program(), ty) else {
        return Err(SplitEnd::NotData);
    };
    cases(alloc, sequent, variable, &family)
}

/// The type of the variable; None exactly where it is not live. It takes no memory.
fn live_type<'a>(sequent: &'a Sequent, variable: u32) -> Option<&'a Ty>
    ensures { MatchOption result ((T : Kind) → ¬ (slice_get sequent.now.context.vars variable ≡ Some (Some T))) (λ ty. slice_get sequent.now.context.vars variable ≡ Some (Some ty.now)) }
{
    let Some(slot) = at(sequent.context.vars.as_slice(), variable as usize) else {
        return None;
    };
    let Some(ty) = slot else {
        return None;
    };
    Some(ty)
}

/// A sequent for each constructor of the datatype, in order, each within the limits.
fn cases(
    alloc: Global,
    sequent: &Sequent,
    variable: u32,
    family: &Data,
) -> Result<Items<Sequent>, SplitEnd>
    requires { length family.now.declaration.now.cons < 2 ^ 32 }
    ensures cases { IfOk result (λ children. children ≡ cases_from sequent.now variable family.now.number family.now.args.now 0 family.now.declaration.now.cons) }
    ensures small { IfOk result (All IsWithinLimits) }
    ensures end { IfErr result (IsOversized (All IsWithinLimits (cases_from sequent.now variable family.now.number family.now.args.now 0 family.now.declaration.now.cons))) }
{
    let mut children = Items::new(alloc);
    for place in 0..family.declaration.cons.len() {
        let shape = shape_at(family, place);
        let child = case(alloc, sequent, variable, &shape)?;
        children.push(child)?;
    }
    Ok(children)
}

/// The sequent where the variable is this constructor on fresh variables. Its sizes are asked before its terms are built.
fn case(alloc: Global, sequent: &Sequent, variable: u32, shape: &Shape) -> Result<Sequent, SplitEnd>
    ensures case { IfOk result (λ child. child ≡ case_of sequent.now variable shape.now.datatype shape.now.args.now shape.now.con shape.now.constructor.now) }
    ensures small { IfOk result IsWithinLimits }
    ensures end { IfErr result (IsOversized (IsWithinLimits (case_of sequent.now variable shape.now.datatype shape.now.args.now shape.now.con shape.now.constructor.now))) }
{
    let Some(fresh) = room_for_fields(sequent.next, shape) else {
        return Err(SplitEnd::Oversize);
    };
    let vars = case_vars(alloc, sequent.context.vars.as_slice(), variable, shape)?;
    if !are_small_types(vars.as_slice()) {
        return Err(SplitEnd::Oversize);
    }
    let by = on_fresh_variables(alloc, sequent.next, fresh, shape)?;
    if !is_small_put(sequent, variable, &by) {
        return Err(SplitEnd::Oversize);
    }
    let funs = copy_fn_types(alloc, sequent.context.funs.as_slice())?;
    let frame = put_frame(alloc, &sequent.frame, variable, &by)?;
    let facts = put_equations(alloc, sequent.facts.as_slice(), variable, &by)?;
    let alternatives = put_equations(alloc, sequent.alternatives.as_slice(), variable, &by)?;
    Ok(Sequent {
        context: Context {
            tparams: sequent.context.tparams,
            funs,
            vars,
        },
        frame,
        facts,
        alternatives,
        next: sequent.next + fresh,
    })
}

/// The variables' types where one variable is no longer live, and then those of the constructor's fields.
fn case_vars(
    alloc: Global,
    vars: &[Option<Ty>],
    variable: u32,
    shape: &Shape,
) -> Result<Items<Option<Ty>>, NoMemory>
    ensures { IfOk result (λ r. r ≡ slice_set vars.now variable None ++ live (tys_instance shape.now.args.now shape.now.constructor.now.fields)) }
{
    let mut extended = vars_without(alloc, vars, variable)?;
    push_fields(alloc, &mut extended, shape)?;
    Ok(extended)
}
