//! Headers: what is open at first in an obligation.
ghost use Rattle.std.specs.Prelude.{◌≡◌, ◌<◌, ◌↔◌, ◌^◌, All, IfOk, IsTrue, length};
ghost use Rattle.px_terms.specs.Typing.{live};
ghost use Rattle.px_terms.specs.Derivations.{AreFrameVariables, begins_with};

use px_induct::new_frame;
use px_terms::{Clause, Context, NoMemory, Sequent, Ty, copy_equations, copy_fn_types, copy_ty};
use sqlite_items::Items;
use std::alloc::Global;

/// Whether the induction may speak of these variables: they rise, and each is one of the clause's. It takes no memory.
pub(crate) fn are_frame_variables(clause: &Clause, on: &[u32]) -> bool
    ensures { IsTrue result ↔ AreFrameVariables clause.now on.now }
{
    let count = clause.vars.len() as u64;
    let mut least: u64 = 0;
    for variable in on {
        let number = u64::from(*variable);
        if number < least || count <= number {
            return false;
        }
        least = number + 1;
    }
    true
}

/// The first sequent of a clause, where the induction speaks of these variables. It takes memory for copies of the clause's
/// parts.
pub(crate) fn first_sequent(alloc: Global, clause: &Clause, on: &[u32]) -> Result<Sequent, NoMemory>
    requires variables { AreFrameVariables clause.now on.now }
    requires few { length clause.now.vars < 2 ^ 32 }
    ensures { IfOk result (λ s. s ≡ begins_with clause.now on.now) }
{
    Ok(Sequent {
        context: Context {
            tparams: clause.tparams,
            funs: copy_fn_types(alloc, clause.funs.as_slice())?,
            vars: live_variables(alloc, clause.vars.as_slice())?,
        },
        frame: new_frame(alloc, on)?,
        facts: copy_equations(alloc, clause.premises.as_slice())?,
        alternatives: copy_equations(alloc, clause.alternatives.as_slice())?,
        next: clause.vars.len() as u32,
    })
}

/// All variables of these types, live.
fn live_variables(alloc: Global, types: &[Ty]) -> Result<Items<Option<Ty>>, NoMemory>
    ensures { IfOk result (λ vars. vars ≡ live types.now) }
{
    let mut vars = Items::new(alloc);
    for ty in types {
        vars.push(Some(copy_ty(alloc, ty)?))?;
    }
    Ok(vars)
}
