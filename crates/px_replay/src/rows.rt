//! Rows: what each leaves of the sequent on top.
ghost use Rattle.std.specs.Prelude.{◌≡◌, ◌<◌, ◌∷◌, [], ◌↔◌, IfOk, IsOkUnless, IsTrue, List, length};
ghost use Rattle.px_terms.specs.declared.sequent.Sequent.{Sequent as AnySequent};
ghost use Rattle.px_terms.specs.declared.row.Row.TheVariants as rows;
ghost use Rattle.px_terms.specs.Rows.{Opens, MayStand};
ghost use Rattle.px_derive.specs.Spellable.{IsSpellable};
ghost use Rattle.px_replay.specs.Replaying.{IsRightlyMarked, Leaves, SidesAreOne};

use crate::ends::RowEnd;
use crate::notes::note_children;
use crate::open_sequents::Open;
use crate::steps::step_target;
use px_cases::{clashes, inject, split_term, split_variable};
use px_equations::Obligations;
use px_terms::{Kind, NoMemory, Path, Row, Sequent, Target, Term, same_term};
use sqlite_items::{Items, at};
use std::alloc::Global;

/// The sides of this alternative are one term.
fn is_same(sequent: &Sequent, alternative: u32) -> bool
    ensures { IsTrue result ↔ SidesAreOne sequent.now alternative }
{
    match at(sequent.alternatives.as_slice(), alternative as usize) {
        Some(equation) => same_term(&equation.left, &equation.right),
        None => false,
    }
}

/// One child.
fn single(alloc: Global, child: Sequent) -> Result<Items<Sequent>, NoMemory>
    ensures { IfOk result (λ children. children ≡ child ∷ []) }
{
    let mut children = Items::new(alloc);
    children.push(child)?;
    Ok(children)
}

/// Nothing is left where the sides of the alternative are one term.
fn same_children(
    alloc: Global,
    all: &Obligations,
    number: u32,
    sequent: &Sequent,
    alternative: u32,
) -> Result<Items<Sequent>, RowEnd>
    ensures leaves { IfOk result (Leaves all.now number sequent.now (rows.Same alternative)) }
    ensures only { (children : List AnySequent) → Opens all.now number sequent.now (rows.Same alternative) children → IsOkUnless result RowEnd.NoMemory }
{
    if !is_same(sequent, alternative) {
        return Err(RowEnd::NoRule);
    }
    Ok(Items::new(alloc))
}

/// Nothing is left where the sides of the fact have different heads.
fn clash_children(
    alloc: Global,
    all: &Obligations,
    number: u32,
    sequent: &Sequent,
    fact: u32,
) -> Result<Items<Sequent>, RowEnd>
    ensures leaves { IfOk result (Leaves all.now number sequent.now (rows.Clash fact)) }
    ensures only { (children : List AnySequent) → Opens all.now number sequent.now (rows.Clash fact) children → IsOkUnless result RowEnd.NoMemory }
{
    let Ok(clash) = clashes(sequent, fact) else {
        return Err(RowEnd::NoRule);
    };
    if !clash {
        return Err(RowEnd::NoRule);
    }
    Ok(Items::new(alloc))
}

/// The sequent with the stepped side is left.
fn step_children(
    alloc: Global,
    all: &Obligations,
    number: u32,
    top: Open,
    target: Target,
    path: &Path,
    kind: Kind,
) -> Result<Items<Sequent>, RowEnd>
    requires { IsRightlyMarked top }
    ensures leaves { IfOk result (Leaves all.now number top.sequent (rows.Step target path.now kind)) }
    ensures only { (children : List AnySequent) → Opens all.now number top.sequent (rows.Step target path.now kind) children → IsOkUnless result RowEnd.NoMemory }
{
    let child = step_target(alloc, all.checked(), top, target, path, kind)?;
    Ok(single(alloc, child)?)
}

/// The cases of the variable are left.
fn case_children(
    alloc: Global,
    all: &Obligations,
    number: u32,
    sequent: &Sequent,
    variable: u32,
) -> Result<Items<Sequent>, RowEnd>
    ensures leaves { IfOk result (Leaves all.now number sequent.now (rows.CaseVar variable)) }
    ensures only { (children : List AnySequent) → Opens all.now number sequent.now (rows.CaseVar variable) children → IsOkUnless result RowEnd.NoMemory }
{
    Ok(split_variable(alloc, all.checked(), sequent, variable)?)
}

/// The cases of the term are left.
fn split_children(
    alloc: Global,
    all: &Obligations,
    number: u32,
    sequent: Sequent,
    term: &Term,
) -> Result<Items<Sequent>, RowEnd>
    requires { MayStand term.now }
    ensures leaves { IfOk result (Leaves all.now number sequent (rows.SplitTerm term.now)) }
    ensures only { (children : List AnySequent) → Opens all.now number sequent (rows.SplitTerm term.now) children → IsOkUnless result RowEnd.NoMemory }
{
    Ok(split_term(alloc, all.checked(), sequent, term)?)
}

/// The sequent with equations of the fields is left.
fn inject_children(
    alloc: Global,
    all: &Obligations,
    number: u32,
    sequent: Sequent,
    fact: u32,
) -> Result<Items<Sequent>, RowEnd>
    ensures leaves { IfOk result (Leaves all.now number sequent (rows.Inject fact)) }
    ensures only { (children : List AnySequent) → Opens all.now number sequent (rows.Inject fact) children → IsOkUnless result RowEnd.NoMemory }
{
    let child = inject(alloc, sequent, fact)?;
    Ok(single(alloc, child)?)
}

/// What the row leaves of the open sequent in the obligation of this number, in order. A step and an injection move the sequent;
/// a note moves it into the child of its last alternative and a split into its last child, and both copy it for the others; the
/// cases of a variable are each written anew.
pub(crate) fn row_children(
    alloc: Global,
    all: &Obligations,
    number: u32,
    top: Open,
    row: Row,
) -> Result<Items<Sequent>, RowEnd>
    requires marked { IsRightlyMarked top }
    requires below { number < length all.now.declared }
    requires spellable { IsSpellable all.now.names row }
    ensures leaves { IfOk result (Leaves all.now number top.sequent row) }
    ensures only { (children : List AnySequent) → Opens all.now number top.sequent row children → IsOkUnless result RowEnd.NoMemory }
{
    match row {
        Row::Header { .. } => Err(RowEnd::NoRule),
        Row::Same { alternative } => same_children(alloc, all, number, &top.sequent, alternative),
        Row::Step { target, path, kind } => {
            step_children(alloc, all, number, top, target, &path, kind)
        }
        Row::Note { reference, sigma } => note_children(alloc, all, number, top, reference, sigma),
        Row::CaseVar { variable } => case_children(alloc, all, number, &top.sequent, variable),
        Row::SplitTerm { term } => split_children(alloc, all, number, top.sequent, &term),
        Row::Clash { fact } => clash_children(alloc, all, number, &top.sequent, fact),
        Row::Inject { fact } => inject_children(alloc, all, number, top.sequent, fact),
    }
}
