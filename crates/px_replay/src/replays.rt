//! The replay of a derivation, fed line by line.
ghost use Rattle.std.specs.Prelude.{◌≡◌, ◌<◌, ◌^◌, ◌↔◌, ℕ, List, [], length, IfOk, IsTrue, Some, Err};
ghost use Rattle.px_terms.specs.Obligations.{AllHoldInExtensions};
ghost use Rattle.px_replay.specs.Ends.{refusal_at};
ghost use Rattle.px_replay.specs.Standings.{Fed, Finished, StandsFor, StaysRefused};

use crate::ends::{Accepted, FeedEnd, LineRefusal, Why};
use crate::laws::{ends_are_derivations, one_state};
use crate::lines::take_line;
use crate::open_sequents::Progress;
use px_derive::one_row;
use px_equations::Obligations;
use px_soundness::derivations_are_sound;
use px_terms::NoMemory;
use sqlite_items::Items;
use std::alloc::Global;
use std::marker::Model;

/// A replay of a derivation of these obligations, fed line by line. Contracts see it as its program, its state, the number of
/// lines that it was fed, and the refusal that it repeats.
#[derive(Drop)]
pub struct Replay<'a> {
    alloc: Global,
    all: &'a Obligations<'a>,
    progress: Progress,
    fed: u64,
    refusal: Option<FeedEnd>,
}

impl<'a> Model for Replay<'a> {
    ghost use Rattle.px_replay.specs.Standings.{Standing, standing_code};
    ghost use Rattle.px_replay.specs.Keeping.{IsKept};
    ghost use Rattle.px_replay.specs.Replaying.{state_of};

    ghost Value = { Standing };

    ghost coded = { standing_code };

    ghost view = { λ r. record { program = r.all.now; state = state_of r.progress; fed = r.fed; refusal = r.refusal } };

    ghost invariant = { λ r. IsKept r.all.now r.progress r.fed r.refusal };
}

impl<'a> Replay<'a> {
    /// A replay that was fed nothing yet.
    pub fn new(alloc: Global, all: &'a Obligations<'a>) -> Result<Replay<'a>, NoMemory>
        ensures program { IfOk result (λ replay. replay.program ≡ all.now) }
        ensures stands { IfOk result (λ replay. StandsFor replay []) }
    {
        let progress = Progress {
            next: 0,
            stack: Items::new(alloc),
        };
        Ok(Replay {
            alloc,
            all,
            progress,
            fed: 0,
            refusal: None,
        })
    }

    /// Takes the next line, without its line feed. Where the lines so far and this one are a partial derivation (trees of the
    /// first obligations, and then maybe the header and the first rows of one more; nobody says that it can be completed), the
    /// replay stands for them; else the line is rejected with its number and what is wrong first, or no memory was left. After
    /// a refusal the same refusal is the answer from then on. At most 2^63 lines may be fed.
    pub fn feed(&mut self, line: &[u8]) -> Result<(), FeedEnd>
        requires { self.old.fed < 2 ^ 63 }
        ensures stands { (lines : List (List ℕ)) → StandsFor self.old lines → Fed lines line.now self.new result }
        ensures stays { StaysRefused self.old self.new result }
        ensures program { self.new.program ≡ self.old.program }
    {
        one_row();
        one_state();
        if let Some(end) = self.refusal {
            return Err(end);
        }
        let _checked = self.all.checked();
        match take_line(self.alloc, self.all, &mut self.progress, line) {
            Ok(()) => {
                self.fed += 1;
                Ok(())
            }
            Err(refusal) => {
                let end = at_line(self.fed + 1, refusal);
                self.refusal = Some(end);
                Err(end)
            }
        }
    }

    /// Whether the lines were a whole derivation, of how many obligations; then each of them holds. `End` where places are
    /// still open or obligations are left, on the line after the last; after a refusal that refusal. It takes no memory.
    pub fn finish(self) -> Result<Accepted, FeedEnd>
        ensures stands { (lines : List (List ℕ)) → StandsFor self.entry lines → Finished self.entry.program lines result }
        ensures refused { (kept : FeedEnd) → self.entry.refusal ≡ Some kept → result ≡ Err kept }
        ensures holds { IfOk result (λ _. AllHoldInExtensions self.entry.program) }
    {
        one_state();
        ends_are_derivations();
        derivations_are_sound();
        if let Some(end) = self.refusal {
            return Err(end);
        }
        let _checked = self.all.checked();
        if !is_ended(self.all, &self.progress) {
            return Err(FeedEnd::Rejected {
                line: self.fed + 1,
                why: Why::End,
            });
        }
        let obligations = self.all.count();
        Ok(Accepted { obligations })
    }
}

/// Whether every obligation was begun, and nothing is open.
fn is_ended(all: &Obligations, progress: &Progress) -> bool
    ensures { IsTrue result ↔ ((progress.now.next ≡ length all.now.declared) × (progress.now.stack ≡ [])) }
{
    progress.next == all.count() && progress.stack.is_empty()
}

/// The refusal of the line of this number.
fn at_line(line: u64, refusal: LineRefusal) -> FeedEnd
    ensures { result ≡ refusal_at line refusal }
{
    match refusal {
        LineRefusal::Wrong { why } => FeedEnd::Rejected { line, why },
        LineRefusal::NoMemory => FeedEnd::NoMemory,
    }
}
