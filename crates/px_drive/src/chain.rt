//! A command as a chain of stages: reads its texts, does its work, prints its answer. The first stage that refuses ends it.
ghost use Rattle.std.specs.Prelude.{◌≤◌, All, IsTrue};
ghost use Rattle.px_drive.specs.Lines.{files_of};
ghost use Rattle.px_drive.specs.Ends.{Runs, end_of};
ghost use Rattle.px_drive.specs.Seen.{files_seen, sink_seen, KeepsFiles};

use crate::eval::{Question, eval};
use crate::messages::{print_accepted, print_checked};
use crate::run::{Recording, run};
use crate::stages::{accept, read_program, read_text};
use crate::{CommandLine, End, Which};
use px_terms::Text;
use px_world::{Files, Sink};
use std::alloc::Global;

/// Does the work of a line and prints its answer, and says how it ended. The line's files must be ones that may be
/// opened, and no other is.
pub(crate) fn run_line<F: Files, O: Sink>(
    alloc: Global,
    line: &CommandLine,
    files: &mut F,
    out: &mut O,
) -> End
    requires { All (λ name. IsTrue (F.may_open files.old name)) (files_of line.now) }
    ensures runs { Runs (files_seen F.Files files.old files.new) (sink_seen O.Sink out.old out.new) line.now result }
    ensures keeps { KeepsFiles F.Files files.old files.new }
    ensures out_later { O.faults out.old ≤ O.faults out.new }
{
    match do_line(alloc, line, files, out) {
        Ok(()) => End::Done,
        Err(end) => end,
    }
}

/// Does the work of a line: a row for each command.
fn do_line<F: Files, O: Sink>(
    alloc: Global,
    line: &CommandLine,
    files: &mut F,
    out: &mut O,
) -> Result<(), End>
    requires { All (λ name. IsTrue (F.may_open files.old name)) (files_of line.now) }
    ensures runs { Runs (files_seen F.Files files.old files.new) (sink_seen O.Sink out.old out.new) line.now (end_of result) }
    ensures keeps { KeepsFiles F.Files files.old files.new }
    ensures out_later { O.faults out.old ≤ O.faults out.new }
{
    match line {
        CommandLine::Check { file } => check(alloc, file, files, out),
        CommandLine::Replay { file, derivation } => replay(alloc, file, derivation, files, out),
        CommandLine::Eval {
            file,
            name,
            values,
            calls,
        } => {
            let question = Question {
                name,
                values,
                calls: *calls,
            };
            eval(alloc, file, question, files, out)
        }
        CommandLine::Run {
            file,
            derivation,
            schedule,
            calls,
        } => {
            let recording = Recording {
                derivation,
                schedule,
                calls: *calls,
            };
            run(alloc, file, recording, files, out)
        }
    }
}

/// Reads the program, and prints how many datatypes, definitions and obligations it has.
fn check<F: Files, O: Sink>(
    alloc: Global,
    file: &Text,
    files: &mut F,
    out: &mut O,
) -> Result<(), End>
    requires { IsTrue (F.may_open files.old file.now) }
    ensures runs { Runs (files_seen F.Files files.old files.new) (sink_seen O.Sink out.old out.new)
        (CommandLine.Check file.now) (end_of result) }
    ensures keeps { KeepsFiles F.Files files.old files.new }
    ensures out_later { O.faults out.old ≤ O.faults out.new }
{
    let checked = read_program(alloc, file, files)?;
    print_checked(out, checked.program())?;
    Ok(())
}

/// Reads the program, reads the derivation and replays it, and prints how many obligations were accepted.
fn replay<F: Files, O: Sink>(
    alloc: Global,
    file: &Text,
    derivation: &Text,
    files: &mut F,
    out: &mut O,
) -> Result<(), End>
    requires file { IsTrue (F.may_open files.old file.now) }
    requires derivation { IsTrue (F.may_open files.old derivation.now) }
    ensures runs { Runs (files_seen F.Files files.old files.new) (sink_seen O.Sink out.old out.new)
        (CommandLine.Replay file.now derivation.now) (end_of result) }
    ensures keeps { KeepsFiles F.Files files.old files.new }
    ensures out_later { O.faults out.old ≤ O.faults out.new }
{
    let checked = read_program(alloc, file, files)?;
    let steps = read_text(alloc, files, derivation, Which::Derivation)?;
    let obligations = accept(alloc, &checked, &steps)?;
    print_accepted(out, obligations)?;
    Ok(())
}
