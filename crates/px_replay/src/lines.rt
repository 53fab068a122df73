//! Lines: what each does to the state of a replay.
ghost use Rattle.std.specs.Prelude.{◌≡◌, ◌++◌, ◌∷◌, [], IfErr, OnOk};
ghost use Rattle.px_derive.specs.Spellable.{IsSpellable};
ghost use Rattle.px_replay.specs.States.{LineMoves, Moves, MovesFrom};
ghost use Rattle.px_replay.specs.Replaying.{IsSound, LineRefused, RowRefused, sequents_of, state_of};

use crate::ends::{LineRefusal, Why};
use crate::headers::{are_frame_variables, first_sequent};
use crate::open_sequents::{Open, Progress, push_reversed};
use crate::rows::row_children;
use px_derive::read_line;
use px_equations::Obligations;
use px_terms::Row;
use std::alloc::Global;

/// Takes the header of the next obligation, where nothing is open: its first sequent is open then.
fn take_header(
    alloc: Global,
    all: &Obligations,
    progress: &mut Progress,
    row: &Row,
) -> Result<(), LineRefusal>
    requires sound { IsSound all.now progress.old }
    requires none { progress.old.stack ≡ [] }
    ensures takes { OnOk result (Moves all.now (state_of progress.old) row.now (state_of progress.new)) }
    ensures sound { OnOk result (IsSound all.now progress.new) }
    ensures refuses { IfErr result (RowRefused all.now (state_of progress.old) row.now) }
{
    let _checked = all.checked();
    let Row::Header { obligation, on } = row else {
        return Err(LineRefusal::Wrong { why: Why::Order });
    };
    if *obligation != progress.next {
        return Err(LineRefusal::Wrong { why: Why::Order });
    }
    let Some(clause) = all.clause(progress.next) else {
        return Err(LineRefusal::Wrong { why: Why::Order });
    };
    if !are_frame_variables(clause, on.as_slice()) {
        return Err(LineRefusal::Wrong { why: Why::Rule });
    }
    let first = first_sequent(alloc, clause, on.as_slice())?;
    progress.stack.push(Open::first(first))?;
    progress.next += 1;
    Ok(())
}

/// Takes a row of the tree at hand at the sequent that was on top: what it leaves is open in its place.
fn take_at_top(
    alloc: Global,
    all: &Obligations,
    progress: &mut Progress,
    top: Open,
    row: Row,
) -> Result<(), LineRefusal>
    requires sound { IsSound all.now (record { next = progress.old.next; stack = progress.old.stack ++ top ∷ [] }) }
    requires spellable { IsSpellable all.now.names row }
    ensures takes { OnOk result (MovesFrom all.now progress.old.next (top.sequent ∷ sequents_of progress.old.stack) row (state_of progress.new)) }
    ensures sound { OnOk result (IsSound all.now progress.new) }
    ensures refuses { IfErr result (RowRefused all.now (record { next = progress.old.next; stack = top.sequent ∷ sequents_of progress.old.stack }) row) }
{
    if let Row::Header { .. } = &row {
        return Err(LineRefusal::Wrong { why: Why::Order });
    }
    let children = row_children(alloc, all, progress.next - 1, top, row)?;
    push_reversed(&mut progress.stack, children)?;
    Ok(())
}

/// Takes a row: the header of the next obligation where nothing is open, else a row of the tree at hand.
fn take_row(
    alloc: Global,
    all: &Obligations,
    progress: &mut Progress,
    row: Row,
) -> Result<(), LineRefusal>
    requires sound { IsSound all.now progress.old }
    requires spellable { IsSpellable all.now.names row }
    ensures takes { OnOk result (Moves all.now (state_of progress.old) row (state_of progress.new)) }
    ensures sound { OnOk result (IsSound all.now progress.new) }
    ensures refuses { IfErr result (RowRefused all.now (state_of progress.old) row) }
{
    match progress.stack.pop() {
        Some(top) => take_at_top(alloc, all, progress, top, row),
        None => take_header(alloc, all, progress, &row),
    }
}

/// Takes a line. Where it is refused, what is open is no longer to be relied on.
pub(crate) fn take_line(
    alloc: Global,
    all: &Obligations,
    progress: &mut Progress,
    line: &[u8],
) -> Result<(), LineRefusal>
    requires sound { IsSound all.now progress.old }
    ensures takes { OnOk result (LineMoves all.now (state_of progress.old) line.now (state_of progress.new)) }
    ensures sound { OnOk result (IsSound all.now progress.new) }
    ensures refuses { IfErr result (LineRefused all.now (state_of progress.old) line.now) }
{
    let program = all.checked().program();
    let row = read_line(alloc, &program.names, line)?;
    take_row(alloc, all, progress, row)
}
