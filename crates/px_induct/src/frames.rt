//! Frames.
ghost use Rattle.std.specs.Prelude.{◌≡◌, IfOk, OnOk, OnErr, MatchOption, ℕ, Some, slice_get, map};
ghost use Rattle.px_terms.specs.declared.term.Term.TheVariants as term;
ghost use Rattle.px_terms.specs.declared.sequent.Present.{Present as Entry};
ghost use Rattle.px_terms.specs.Sequents.{own_frame, frame_put};
ghost use Rattle.px_terms.specs.Terms.{term_put};
ghost use Rattle.px_terms.specs.Derivations.{Rise};

use px_terms::{Frame, NoMemory, Present, Term, copy, put};
use sqlite_items::Items;
use std::alloc::Global;

/// The frame of these variables, each with itself as present term. The numbers are to rise. It takes memory, and fails
/// only where there is none.
pub fn new_frame(alloc: Global, variables: &[u32]) -> Result<Frame, NoMemory>
    requires { Rise variables.now }
    ensures { IfOk result (λ frame. frame ≡ own_frame (λ (v : ℕ). term.Free v) variables.now) }
{
    let mut entries = Items::new(alloc);
    for variable in variables {
        entries.push(Present {
            variable: *variable,
            term: Term::Free(*variable),
        })?;
    }
    Ok(Frame { entries })
}

/// Puts `by` in for the variable in each present term. It takes memory; where there is none the frame stays as it was.
pub fn substitute(
    alloc: Global,
    frame: &mut Frame,
    variable: u32,
    by: &Term,
) -> Result<(), NoMemory>
    ensures ok { OnOk result (frame.new ≡ frame_put variable by.now frame.old) }
    ensures err { OnErr result (frame.new ≡ frame.old) }
{
    let entries = put_entries(alloc, frame.entries.as_slice(), variable, by)?;
    frame.entries = entries;
    Ok(())
}

/// The entries with `by` put in for the variable in each present term.
fn put_entries(
    alloc: Global,
    entries: &[Present],
    variable: u32,
    by: &Term,
) -> Result<Items<Present>, NoMemory>
    ensures { IfOk result (λ done. done ≡ map (λ (p : Entry). record { variable = p.variable; term = term_put variable by.now p.term }) entries.now) }
{
    let mut done = Items::new(alloc);
    for entry in entries {
        done.push(Present {
            variable: entry.variable,
            term: put(alloc, &entry.term, variable, by)?,
        })?;
    }
    Ok(done)
}

/// A copy of the frame. It takes memory, and fails only where there is none.
pub fn copy_frame(alloc: Global, frame: &Frame) -> Result<Frame, NoMemory>
    ensures { IfOk result (λ copy. copy ≡ frame.now) }
{
    let mut entries = Items::new(alloc);
    for entry in frame.entries.as_slice() {
        entries.push(Present {
            variable: entry.variable,
            term: copy(alloc, &entry.term)?,
        })?;
    }
    Ok(Frame { entries })
}

/// The present term of the variable; None exactly where it is not in the frame. It takes no memory.
pub fn present<'a>(frame: &'a Frame, variable: u32) -> Option<&'a Term>
    ensures { MatchOption result ((i : ℕ) (p : Entry) → slice_get frame.now.entries i ≡ Some p → ¬ (p.variable ≡ variable)) (λ found. (i : ℕ) × (p : Entry) × (slice_get frame.now.entries i ≡ Some p) × (p.variable ≡ variable) × (found.now ≡ p.term)) }
{
    for entry in frame.entries.as_slice() {
        if entry.variable == variable {
            return Some(&entry.term);
        }
    }
    None
}
