//! Copies of sequents. Each takes memory, and fails only where there is none.
ghost use Rattle.std.specs.Prelude.{◌≡◌, IfOk, None, slice_set};
ghost use Rattle.px_terms.specs.Sequents.{frame_put};

use px_terms::{
    Context, Frame, NoMemory, Present, Sequent, Term, Ty, copy, copy_equations, copy_fn_types,
    copy_ty, put,
};
use sqlite_items::Items;
use std::alloc::Global;

/// A copy of the sequent.
pub(crate) fn copy_sequent(alloc: Global, sequent: &Sequent) -> Result<Sequent, NoMemory>
    ensures { IfOk result (λ r. r ≡ sequent.now) }
{
    Ok(Sequent {
        context: copy_context(alloc, &sequent.context)?,
        frame: copy_frame(alloc, &sequent.frame)?,
        facts: copy_equations(alloc, sequent.facts.as_slice())?,
        alternatives: copy_equations(alloc, sequent.alternatives.as_slice())?,
        next: sequent.next,
    })
}

/// A copy of the context.
fn copy_context(alloc: Global, context: &Context) -> Result<Context, NoMemory>
    ensures { IfOk result (λ r. r ≡ context.now) }
{
    Ok(Context {
        tparams: context.tparams,
        funs: copy_fn_types(alloc, context.funs.as_slice())?,
        vars: copy_vars(alloc, context.vars.as_slice())?,
    })
}

/// A copy of a variable's type, where it is live.
fn copy_var(alloc: Global, var: &Option<Ty>) -> Result<Option<Ty>, NoMemory>
    ensures { IfOk result (λ r. r ≡ var.now) }
{
    match var {
        Some(ty) => Ok(Some(copy_ty(alloc, ty)?)),
        None => Ok(None),
    }
}

/// A copy of the variables' types.
fn copy_vars(alloc: Global, vars: &[Option<Ty>]) -> Result<Items<Option<Ty>>, NoMemory>
    ensures { IfOk result (λ r. r ≡ vars.now) }
{
    let mut copied = Items::new(alloc);
    for var in vars {
        copied.push(copy_var(alloc, var)?)?;
    }
    Ok(copied)
}

/// A copy of the variables' types where one variable is no longer live.
pub(crate) fn vars_without(
    alloc: Global,
    vars: &[Option<Ty>],
    variable: u32,
) -> Result<Items<Option<Ty>>, NoMemory>
    ensures { IfOk result (λ r. r ≡ slice_set vars.now variable None) }
{
    let mut copied = copy_vars(alloc, vars)?;
    let place = variable as usize;
    if place < copied.len() {
        copied.set(place, None);
    }
    Ok(copied)
}

/// A copy of the frame.
fn copy_frame(alloc: Global, frame: &Frame) -> Result<Frame, NoMemory>
    ensures { IfOk result (λ r. r ≡ frame.now) }
{
    let mut entries = Items::new(alloc);
    for present in frame.entries.as_slice() {
        entries.push(Present {
            variable: present.variable,
            term: copy(alloc, &present.term)?,
        })?;
    }
    Ok(Frame { entries })
}

/// A copy of the frame with a term put in for a variable in each present term.
pub(crate) fn put_frame(
    alloc: Global,
    frame: &Frame,
    variable: u32,
    by: &Term,
) -> Result<Frame, NoMemory>
    ensures { IfOk result (λ r. r ≡ frame_put variable by.now frame.now) }
{
    let mut entries = Items::new(alloc);
    for present in frame.entries.as_slice() {
        entries.push(Present {
            variable: present.variable,
            term: put(alloc, &present.term, variable, by)?,
        })?;
    }
    Ok(Frame { entries })
}
