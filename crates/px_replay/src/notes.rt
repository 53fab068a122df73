//! Notes: what an instance of an open clause leaves of a sequent.
ghost use Rattle.std.specs.Prelude.{◌≡◌, ◌≢◌, ◌<◌, ◌↔◌, ◌^◌, [], IfOk, IsOkUnless, IsTrue, List, length};
ghost use Rattle.px_terms.specs.declared.sequent.Sequent.{Sequent as AnySequent};
ghost use Rattle.px_terms.specs.declared.row.Row.TheVariants as rows;
ghost use Rattle.px_terms.specs.declared.row.Ref.TheVariants as references;
ghost use Rattle.px_terms.specs.Types.{own_types, own_functions};
ghost use Rattle.px_terms.specs.Noting.{own_sigma};
ghost use Rattle.px_terms.specs.Guards.{Guard};
ghost use Rattle.px_terms.specs.Rows.{Opens, SigmaMayStand};
ghost use Rattle.px_replay.specs.Replaying.{IsRightlyMarked, Leaves};

use crate::ends::RowEnd;
use crate::instances::noted_children;
use crate::open_sequents::Open;
use px_equations::{Filling, Obligations, available, fits_clause};
use px_induct::allows;
use px_terms::{Clause, Fun, Head, NoMemory, Ref, Sequent, Sigma, Term, Ty};
use sqlite_items::Items;
use std::alloc::Global;

/// The type variables of an obligation, in order.
fn types_of_own(alloc: Global, count: u32) -> Result<Items<Ty>, NoMemory>
    ensures { IfOk result (λ types. types ≡ own_types count) }
{
    let mut types = Items::new(alloc);
    for number in 0..count {
        types.push(Ty::Var(number))?;
    }
    Ok(types)
}

/// The function variables of an obligation, in order.
fn functions_of_own(alloc: Global, count: u32) -> Result<Items<Fun>, NoMemory>
    ensures { IfOk result (λ funs. funs ≡ own_functions count) }
{
    let mut funs = Items::new(alloc);
    for number in 0..count {
        funs.push(Fun {
            head: Head::FnVar(number),
            types: Items::new(alloc),
        })?;
    }
    Ok(funs)
}

/// What the hypothesis puts in: the obligation's own type and function variables, and these terms.
fn sigma_of_own(alloc: Global, own: &Clause, terms: Items<Term>) -> Result<Sigma, NoMemory>
    requires { length own.now.funs < 2 ^ 32 }
    ensures { IfOk result (λ sigma. sigma ≡ own_sigma own.now terms) }
{
    Ok(Sigma {
        types: types_of_own(alloc, own.tparams)?,
        funs: functions_of_own(alloc, own.funs.len() as u32)?,
        terms,
    })
}

/// Whether the guard allows the hypothesis with these terms put in.
fn is_guarded(sequent: &Sequent, sigma: &Sigma) -> bool
    ensures { IsTrue result ↔ Guard sequent.now.frame sigma.now.terms }
{
    allows(&sequent.frame, sigma.terms.as_slice())
}

/// What a note of the hypothesis leaves, where the guard allows it. The obligation's clause is looked at in place.
fn hypothesis(
    alloc: Global,
    all: &Obligations,
    number: u32,
    top: Open,
    sigma: Sigma,
) -> Result<Items<Sequent>, RowEnd>
    requires marked { IsRightlyMarked top }
    requires below { number < length all.now.declared }
    requires stands { SigmaMayStand sigma }
    requires types { sigma.types ≡ [] }
    requires funs { sigma.funs ≡ [] }
    ensures leaves { IfOk result (Leaves all.now number top.sequent (rows.Note references.Hypothesis sigma)) }
    ensures only { (children : List AnySequent) → Opens all.now number top.sequent (rows.Note references.Hypothesis sigma) children → IsOkUnless result RowEnd.NoMemory }
{
    let _checked = all.checked();
    let Some(own) = all.clause(number) else {
        unreachable!()
    };
    if !is_guarded(&top.sequent, &sigma) {
        return Err(RowEnd::NoRule);
    }
    let whole = sigma_of_own(alloc, own, sigma.terms)?;
    let filling = Filling {
        context: &top.sequent.context,
        clause: own,
        sigma: &whole,
    };
    if !fits_clause(alloc, all, number, &filling)? {
        return Err(RowEnd::NoRule);
    }
    noted_children(alloc, top, own, &whole)
}

/// What a note of a property or a lemma leaves, where it is open to the obligation.
fn note(
    alloc: Global,
    all: &Obligations,
    number: u32,
    top: Open,
    reference: Ref,
    sigma: &Sigma,
) -> Result<Items<Sequent>, RowEnd>
    requires marked { IsRightlyMarked top }
    requires below { number < length all.now.declared }
    requires stands { SigmaMayStand sigma.now }
    requires other { reference ≢ references.Hypothesis }
    ensures leaves { IfOk result (Leaves all.now number top.sequent (rows.Note reference sigma.now)) }
    ensures only { (children : List AnySequent) → Opens all.now number top.sequent (rows.Note reference sigma.now) children → IsOkUnless result RowEnd.NoMemory }
{
    let Some(_own) = all.clause(number) else {
        unreachable!()
    };
    let Some(found) = available(alloc, all, number, &reference)? else {
        return Err(RowEnd::NoRule);
    };
    let clause = found.clause();
    let filling = Filling {
        context: &top.sequent.context,
        clause,
        sigma,
    };
    if !fits_clause(alloc, all, number, &filling)? {
        return Err(RowEnd::NoRule);
    }
    noted_children(alloc, top, clause, sigma)
}

/// What a note leaves of a sequent: for each premise the same with its instance to be shown, and then for each alternative the
/// same with its instance as a new last fact. It takes memory for the instances, and for copies of the sequent but one.
pub(crate) fn note_children(
    alloc: Global,
    all: &Obligations,
    number: u32,
    top: Open,
    reference: Ref,
    sigma: Sigma,
) -> Result<Items<Sequent>, RowEnd>
    requires marked { IsRightlyMarked top }
    requires below { number < length all.now.declared }
    requires stands { SigmaMayStand sigma }
    requires types { reference ≡ references.Hypothesis → sigma.types ≡ [] }
    requires funs { reference ≡ references.Hypothesis → sigma.funs ≡ [] }
    ensures leaves { IfOk result (Leaves all.now number top.sequent (rows.Note reference sigma)) }
    ensures only { (children : List AnySequent) → Opens all.now number top.sequent (rows.Note reference sigma) children → IsOkUnless result RowEnd.NoMemory }
{
    match reference {
        Ref::Property { .. } | Ref::Lemma { .. } => note(
            alloc, all, number, top, reference, &sigma,
        ),
        Ref::Hypothesis => hypothesis(alloc, all, number, top, sigma),
    }
}
