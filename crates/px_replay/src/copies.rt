//! Copies of open sequents, for a row that leaves several children.
ghost use Rattle.std.specs.Prelude.{◌≡◌, IfOk};

use crate::open_sequents::Open;
use px_induct::copy_frame;
use px_terms::{Context, NoMemory, Sequent, Ty, copy_equations, copy_fn_types, copy_ty};
use sqlite_items::Items;
use std::alloc::Global;

/// A copy of the open sequent. It takes memory, and fails only where there is none.
pub(crate) fn copy_open(alloc: Global, top: &Open) -> Result<Open, NoMemory>
    ensures { IfOk result (λ copy. copy ≡ top.now) }
{
    Ok(Open {
        sequent: copy_sequent(alloc, &top.sequent)?,
        is_within: top.is_within,
    })
}

/// A copy of the sequent.
fn copy_sequent(alloc: Global, sequent: &Sequent) -> Result<Sequent, NoMemory>
    ensures { IfOk result (λ copy. copy ≡ sequent.now) }
{
    Ok(Sequent {
        context: copy_context(alloc, &sequent.context)?,
        frame: copy_frame(alloc, &sequent.frame)?,
        facts: copy_equations(alloc, sequent.facts.as_slice())?,
        alternatives: copy_equations(alloc, sequent.alternatives.as_slice())?,
        next: sequent.next,
    })
}

/// A copy of the context.
pub(crate) fn copy_context(alloc: Global, context: &Context) -> Result<Context, NoMemory>
    ensures { IfOk result (λ copy. copy ≡ context.now) }
{
    Ok(Context {
        tparams: context.tparams,
        funs: copy_fn_types(alloc, context.funs.as_slice())?,
        vars: copy_variables(alloc, context.vars.as_slice())?,
    })
}

/// A copy of a variable's type, where it is live.
fn copy_variable(alloc: Global, variable: &Option<Ty>) -> Result<Option<Ty>, NoMemory>
    ensures { IfOk result (λ copy. copy ≡ variable.now) }
{
    match variable {
        Some(ty) => Ok(Some(copy_ty(alloc, ty)?)),
        None => Ok(None),
    }
}

/// A copy of the variables' types.
fn copy_variables(alloc: Global, variables: &[Option<Ty>]) -> Result<Items<Option<Ty>>, NoMemory>
    ensures { IfOk result (λ copies. copies ≡ variables.now) }
{
    let mut copies = Items::new(alloc);
    for variable in variables {
        copies.push(copy_variable(alloc, variable)?)?;
    }
    Ok(copies)
}
