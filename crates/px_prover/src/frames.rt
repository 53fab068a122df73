//! The first sequents of an obligation, one for each list of variables that the induction may speak of.
ghost use Rattle.std.specs.Prelude.{◌≡◌, ◌<◌, ◌↔◌, ◌^◌, ◌∷◌, All, Contains, IfOk, List, ℕ, true, length, map};
ghost use Rattle.px_terms.specs.declared.clause.Equation.{Equation as Fact};
ghost use Rattle.px_terms.specs.Typing.{live};
ghost use Rattle.px_terms.specs.Derivations.{AreFrameVariables, Rise, begins_with};

use px_induct::new_frame;
use px_terms::{
    Clause, Context, Equation, NoMemory, Sequent, Ty, copy_equations, copy_fn_types, copy_ty,
};
use sqlite_items::Items;
use std::alloc::Global;

/// The lists of variables that an induction on the clause may speak of. It takes memory.
pub(crate) fn frame_variables(alloc: Global, clause: &Clause) -> Result<Items<Items<u32>>, NoMemory>
    requires few { length clause.now.vars < 2 ^ 32 }
    ensures { IfOk result (λ lists. (on : List ℕ) → Contains lists on ↔ AreFrameVariables clause.now on) }
{
    rising_lists(alloc, clause.vars.len() as u32)
}

/// The first sequent of a clause, where the induction speaks of these variables. It takes memory for copies of the clause's
/// parts.
pub(crate) fn first_sequent(alloc: Global, clause: &Clause, on: &[u32]) -> Result<Sequent, NoMemory>
    requires variables { AreFrameVariables clause.now on.now }
    requires few { length clause.now.vars < 2 ^ 32 }
    ensures { IfOk result (λ s. s ≡ begins_with clause.now on.now) }
{
    Ok(Sequent {
        context: Context {
            tparams: clause.tparams,
            funs: copy_fn_types(alloc, clause.funs.as_slice())?,
            vars: live_variables(alloc, clause.vars.as_slice())?,
        },
        frame: new_frame(alloc, on)?,
        facts: copy_equations(alloc, clause.premises.as_slice())?,
        alternatives: copy_equations(alloc, clause.alternatives.as_slice())?,
        next: clause.vars.len() as u32,
    })
}

/// The lists of numbers below this one that rise, each once. It takes memory.
pub(crate) fn rising_lists(alloc: Global, count: u32) -> Result<Items<Items<u32>>, NoMemory>
    ensures { IfOk result (λ lists. (on : List ℕ) → Contains lists on ↔ (Rise on × All (λ (v : ℕ). v < count) on)) }
{
    let mut lists = Items::new(alloc);
    lists.push(Items::new(alloc))?;
    for place in 0..count {
        let longer = each_behind(alloc, count - 1 - place, lists.as_slice())?;
        lists.append(longer)?;
    }
    Ok(lists)
}

/// The number, and behind it each of the lists in turn. It takes memory.
pub(crate) fn each_behind(
    alloc: Global,
    number: u32,
    lists: &[Items<u32>],
) -> Result<Items<Items<u32>>, NoMemory>
    ensures { IfOk result (λ longer. longer ≡ map (λ (list : List ℕ). number ∷ list) lists.now) }
{
    let mut longer = Items::new(alloc);
    for list in lists {
        longer.push(behind(alloc, number, list.as_slice())?)?;
    }
    Ok(longer)
}

/// The number, and behind it the list.
fn behind(alloc: Global, number: u32, list: &[u32]) -> Result<Items<u32>, NoMemory>
    ensures { IfOk result (λ longer. longer ≡ number ∷ list.now) }
{
    let mut longer = Items::new(alloc);
    longer.push(number)?;
    longer.append(Items::from_slice(alloc, list)?)?;
    Ok(longer)
}

/// All variables of these types, live.
fn live_variables(alloc: Global, types: &[Ty]) -> Result<Items<Option<Ty>>, NoMemory>
    ensures { IfOk result (λ vars. vars ≡ live types.now) }
{
    let mut vars = Items::new(alloc);
    for ty in types {
        vars.push(Some(copy_ty(alloc, ty)?))?;
    }
    Ok(vars)
}

/// For each of the facts that it is used.
pub(crate) fn all_used(alloc: Global, facts: &[Equation]) -> Result<Items<bool>, NoMemory>
    ensures { IfOk result (λ used. used ≡ map (λ (e : Fact). true) facts.now) }
{
    let mut used = Items::new(alloc);
    for _fact in facts {
        used.push(true)?;
    }
    Ok(used)
}
