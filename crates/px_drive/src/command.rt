//! The top call: the words, the command that they are, and the one line of a refusal.
ghost use Rattle.std.specs.Prelude.{◌≡◌, ◌≤◌, ◌⊎◌, map, string_bytes, All, IsTrue};
ghost use Rattle.std.specs.Option.{ForSome};
ghost use Rattle.px_world.specs.Faults.{Rose};
ghost use Rattle.px_drive.specs.Lines.{line_of, files_of};
ghost use Rattle.px_drive.specs.Seen.{files_seen, sink_seen, KeepsFiles};
ghost use Rattle.px_drive.specs.Answers.{IsAnswer};
ghost use Rattle.px_drive.specs.Headline.{Headline, TellsFirstBroken};
ghost use Rattle.px_drive.specs.RunHeadline.{PrintsJoins, PrintsAgreeing};
ghost use Rattle.px_drive.specs.Completeness.{IsComplete};

use crate::chain::run_line;
use crate::laws::{
    accepted_is_true, never_both, never_call_and_none, never_rejected, one_call, one_source,
    one_value_of_call, scope_fault_is_first, source_is_checked,
};
use crate::line::read_line;
use crate::messages::report;
use crate::run_laws::{lines_agree, merges_join};
use crate::{End, Outcome};
use px_schedule::{never_both as never_schedule_and_fault, one_schedule};
use px_world::{Files, Sink};
use std::alloc::Global;

/// Runs the command that the words are: reads its texts, does its work, and prints its answer on `out`, or
/// the one line of its refusal on `err`. The words that name files in a plain line must be ones that may
/// be opened; no other name is opened.
///
/// - The end is one that the table of causes allows: the stages of a command are tried in their order, and
///   each refusal comes by the cause of its own stage after the earlier ones answered a value.
/// - `Done` comes only where the work is done; then `out` gained the answer and `err` nothing. Every other
///   end prints nothing on `out`, except that a failed write of the answer leaves a front of it.
/// - Another end than `Done` writes its line on `err`. Where that write fails the end becomes
///   `WriteFault`.
/// - `line` is the line that the words are. It is `None` only where they are no plain line, or where
///   memory ran out while they were read; then nothing is written on `out`.
///
/// Which bytes a name has and which names may be opened is unchanged.
///
/// Where `replay` or `run` is done, every declared property and lemma of the program read holds in the language's meaning, for all values, in every
/// extension of the program.
/// Where `run` is done, `out` gained exactly the lines of the schedule's shows: each is what the replica holds and the join of that. Where an
/// event takes too many calls, it gained exactly the lines before that event; where a write fails or no memory is left, a front of the lines of
/// so many first events, or nothing. Two lines of a run with the same numbers show the same state, whatever was lost, repeated or reordered.
/// Where the text read has a fault of scope, its place is the least byte at which a name of the text breaks a rule.
pub fn drive<F: Files, O: Sink, E: Sink>(
    alloc: Global,
    words: &Vec<String>,
    files: &mut F,
    out: &mut O,
    err: &mut E,
) -> Outcome
    requires { ForSome (line_of (map string_bytes words.now.items))
        (λ line. All (λ name. IsTrue (F.may_open files.old name)) (files_of line)) }
    ensures answer { IsAnswer (map string_bytes words.now.items) (files_seen F.Files files.old files.new)
        (sink_seen O.Sink out.old out.new) (sink_seen E.Sink err.old err.new) result }
    ensures headline { result.end ≡ End.Done → Headline (F.bytes_of files.old) result.line }
    ensures prints { PrintsJoins (F.bytes_of files.old) (sink_seen O.Sink out.old out.new) result.line result.end }
    ensures agree { PrintsAgreeing (sink_seen O.Sink out.old out.new) result.line result.end }
    ensures first_broken { TellsFirstBroken (F.bytes_of files.old) result.line result.end }
    // Where no count of faults rose, a line whose work can be done ends Done.
    ensures complete { IsComplete (map string_bytes words.now.items) (files_seen F.Files files.old files.new)
        (sink_seen O.Sink out.old out.new) (sink_seen E.Sink err.old err.new) result.end }
    ensures read_fault { result.end ≡ End.ReadFault → Rose (F.faults files.old) (F.faults files.new) }
    ensures write_fault { result.end ≡ End.WriteFault
        → Rose (O.faults out.old) (O.faults out.new) ⊎ Rose (E.faults err.old) (E.faults err.new) }

    ensures keeps { KeepsFiles F.Files files.old files.new }
    ensures out_later { O.faults out.old ≤ O.faults out.new }
    ensures err_later { E.faults err.old ≤ E.faults err.new }
{
    accepted_is_true();
    one_source();
    never_both();
    never_rejected();
    one_call();
    never_call_and_none();
    one_value_of_call();
    scope_fault_is_first();
    source_is_checked();
    one_schedule();
    never_schedule_and_fault();
    merges_join();
    lines_agree();
    answer(alloc, words, files, out, err)
}

/// Runs the command, as `drive` says.
fn answer<F: Files, O: Sink, E: Sink>(
    alloc: Global,
    words: &Vec<String>,
    files: &mut F,
    out: &mut O,
    err: &mut E,
) -> Outcome
    requires { ForSome (line_of (map string_bytes words.now.items))
        (λ line. All (λ name. IsTrue (F.may_open files.old name)) (files_of line)) }
    ensures answer { IsAnswer (map string_bytes words.now.items) (files_seen F.Files files.old files.new)
        (sink_seen O.Sink out.old out.new) (sink_seen E.Sink err.old err.new) result }
    ensures keeps { KeepsFiles F.Files files.old files.new }
    ensures out_later { O.faults out.old ≤ O.faults out.new }
    ensures err_later { E.faults err.old ≤ E.faults err.new }
{
    let line = match read_line(alloc, words) {
        Ok(line) => line,
        Err(refusal) => {
            let end = report(refusal, err);
            return Outcome { line: None, end };
        }
    };
    let end = run_line(alloc, &line, files, out);
    let end = report(end, err);
    Outcome {
        line: Some(line),
        end,
    }
}
