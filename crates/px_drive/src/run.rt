//! The command `run`: the replicas of a program over a recorded schedule.
ghost use Rattle.std.specs.Prelude.{◌≡◌, ◌≤◌, ◌<◌, ◌+◌, ◌^◌, ◌++◌, ℕ, List, Some, IsTrue, IfOk, OnOk, codes, slice_get};
ghost use Rattle.std.specs.List.{join_by};
ghost use Rattle.std.specs.Fmt.{decimal};
ghost use Rattle.px_terms.specs.declared.program.ReplicaDef.{ReplicaDef};
ghost use Rattle.px_schedule.specs.Schedules.{IsSchedule};
ghost use Rattle.px_replicas.specs.Joins.{MergeJoins};
ghost use Rattle.px_replicas.specs.Lines.{show_line};
ghost use Rattle.px_drive.specs.Ends.{Runs, RunsEvents, end_of, Schedules};
ghost use Rattle.px_drive.specs.Printing.{HasPrinted, PrintsShown, line_shown, end_of_event};
ghost use Rattle.px_drive.specs.Seen.{files_seen, sink_seen, KeepsFiles};

use crate::laws::source_is_checked;
use crate::messages::write_line;
use crate::run_laws::merges_join;
use crate::stages::{accept, read_program, read_text};
use crate::{CommandLine, End, Which};
use itoa::Buffer;
use px_compile::compile;
use px_descent::Checked;
use px_machine::RunEnd;
use px_replicas::{Shown, World, lines_go_on, next_fits, schedules_may_happen};
use px_schedule::{Schedule, read_schedule};
use px_terms::{Names, NoMemory, Text};
use px_world::{Bytes, Files, Sink};
use std::alloc::Global;

/// What `run` is asked of a program: its derivation, a schedule, and how many calls each merge may take.
#[derive(Clone, Copy)]
pub(crate) struct Recording<'a> {
    pub(crate) derivation: &'a Text,
    pub(crate) schedule: &'a Text,
    pub(crate) calls: u64,
}

/// Reads the program, reads the derivation and replays it, reads the schedule, and runs its events.
pub(crate) fn run<F: Files, O: Sink>(
    alloc: Global,
    file: &Text,
    recording: Recording<'_>,
    files: &mut F,
    out: &mut O,
) -> Result<(), End>
    requires file { IsTrue (F.may_open files.old file.now) }
    requires derivation { IsTrue (F.may_open files.old recording.derivation.now) }
    requires schedule { IsTrue (F.may_open files.old recording.schedule.now) }
    ensures runs { Runs (files_seen F.Files files.old files.new) (sink_seen O.Sink out.old out.new)
        (CommandLine.Run file.now recording.entry.derivation.now recording.entry.schedule.now recording.entry.calls) (end_of result) }
    ensures keeps { KeepsFiles F.Files files.old files.new }
    ensures out_later { O.faults out.old ≤ O.faults out.new }
{
    source_is_checked();
    merges_join();
    let checked = read_program(alloc, file, files)?;
    let steps = read_text(alloc, files, recording.derivation, Which::Derivation)?;
    let _obligations = accept(alloc, &checked, &steps)?;
    let text = read_text(alloc, files, recording.schedule, Which::Schedule)?;
    let schedule = find_schedule(alloc, &checked, &text)?;
    run_events(alloc, &checked, &schedule, recording.calls, out)
}

/// The schedule of the bytes.
fn find_schedule(alloc: Global, checked: &Checked, bytes: &Bytes) -> Result<Schedule, End>
    ensures { Schedules checked.now bytes.now result }
{
    let schedule = read_schedule(alloc, checked, bytes.as_slice())?;
    Ok(schedule)
}

/// Runs the events one after the other, each merge within so many calls. A show prints its line before the next event begins.
fn run_events<O: Sink>(
    alloc: Global,
    checked: &Checked,
    schedule: &Schedule,
    calls: u64,
    out: &mut O,
) -> Result<(), End>
    requires lines { (lines : List ℕ) × IsSchedule checked.now lines schedule.now }
    requires joins { (R : ReplicaDef) → slice_get checked.now.replicas schedule.now.declaration ≡ Some R → MergeJoins checked.now R }
    ensures runs { HasPrinted (RunsEvents checked.now schedule.now calls) (sink_seen O.Sink out.old out.new) (end_of result) }
    ensures later { O.faults out.old ≤ O.faults out.new }
{
    schedules_may_happen();
    next_fits();
    lines_go_on();
    let code = compile(alloc, checked)?;
    let names = &checked.program().names;
    let events = schedule.events.as_slice();
    let mut world = World::new(alloc, checked, &code, schedule.declaration, schedule.count)?;
    for number in 0..events.len() {
        match world.event(alloc, &events[number], calls) {
            Ok(shown) => print_shown(alloc, names, shown, out)?,
            Err(refusal) => return Err(end_of_event(refusal, number)),
        }
    }
    Ok(())
}

/// How the command ends where the event at this place, from 0, is refused. Events are numbered from 1.
fn end_of_event(refusal: RunEnd, place: usize) -> End
    requires { place + 1 < 2 ^ 64 }
    ensures { result ≡ end_of_event place refusal }
{
    match refusal {
        RunEnd::Spent => End::Spent {
            event: place as u64 + 1,
        },
        RunEnd::NoMemory => End::NoMemory,
    }
}

/// Prints the line of an event that shows a replica; another event has none.
fn print_shown<O: Sink>(
    alloc: Global,
    names: &Names,
    shown: Option<Shown>,
    out: &mut O,
) -> Result<(), End>
    ensures prints { PrintsShown (line_shown names.now shown) (sink_seen O.Sink out.old out.new) result }
    ensures later { O.faults out.old ≤ O.faults out.new }
{
    if let Some(shown) = shown {
        let line = line_of(alloc, names, &shown)?;
        write_line(out, line.as_slice())?;
    }
    Ok(())
}

/// The line of a show: the replica, the numbers of the updates that it holds, and its state.
fn line_of(alloc: Global, names: &Names, shown: &Shown) -> Result<Bytes, NoMemory>
    ensures { IfOk result (λ line. line ≡ show_line names.now shown.now) }
{
    let mut digits = Buffer::new();
    let value = shown.value.print(alloc, names)?;
    let mut line = Bytes::new(alloc);
    line.extend_from_slice(digits.format(shown.replica).as_bytes())?;
    line.extend_from_slice(b" [")?;
    push_numbers(&mut line, shown.numbers.as_slice())?;
    line.extend_from_slice(b"] ")?;
    line.extend_from_slice(value.as_slice())?;
    line.extend_from_slice(b"\n")?;
    Ok(line)
}

/// Adds the numbers in decimal, with commas between.
fn push_numbers(line: &mut Bytes, numbers: &[u32]) -> Result<(), NoMemory>
    ensures { OnOk result (line.new ≡ line.old ++ join_by decimal (codes ",") numbers.now) }
{
    let [first, others @ ..] = numbers else {
        return Ok(());
    };
    push_number(line, b"", *first)?;
    for number in others {
        push_number(line, b",", *number)?;
    }
    Ok(())
}

/// Adds these bytes, and the number in decimal.
fn push_number(line: &mut Bytes, before: &[u8], number: u32) -> Result<(), NoMemory>
    ensures { OnOk result (line.new ≡ line.old ++ (before.now ++ decimal number)) }
{
    let mut digits = Buffer::new();
    line.extend_from_slice(before)?;
    line.extend_from_slice(digits.format(number).as_bytes())?;
    Ok(())
}
