//! The command `eval`: one call of a program is evaluated.
ghost use Rattle.std.specs.Prelude.{◌≤◌, IsTrue};
ghost use Rattle.px_drive.specs.Arguments.{FitsProgram};
ghost use Rattle.px_drive.specs.Ends.{Runs, end_of, Evaluates};
ghost use Rattle.px_drive.specs.Seen.{files_seen, sink_seen, KeepsFiles};

use crate::arguments::{ClosedCall, find_call};
use crate::laws::{source_is_checked, source_is_numbered};
use crate::messages::print_evaluated;
use crate::stages::read_program;
use crate::{CommandLine, End};
use px_compile::compile;
use px_descent::Checked;
use px_machine::{Call, Done, RunEnd, run};
use px_terms::Text;
use px_world::{Files, Sink};
use sqlite_items::Items;
use std::alloc::Global;

/// What `eval` is asked of a program: a definition by its name, the words of its arguments, and how many calls it may make.
#[derive(Clone, Copy)]
pub(crate) struct Question<'a> {
    pub(crate) name: &'a Text,
    pub(crate) values: &'a Items<Text>,
    pub(crate) calls: u64,
}

/// Reads the program, finds the call, evaluates it, and prints its value and the number of its calls.
pub(crate) fn eval<F: Files, O: Sink>(
    alloc: Global,
    file: &Text,
    question: Question<'_>,
    files: &mut F,
    out: &mut O,
) -> Result<(), End>
    requires { IsTrue (F.may_open files.old file.now) }
    ensures runs { Runs (files_seen F.Files files.old files.new) (sink_seen O.Sink out.old out.new)
        (CommandLine.Eval file.now question.entry.name.now question.entry.values.now question.entry.calls) (end_of result) }
    ensures keeps { KeepsFiles F.Files files.old files.new }
    ensures out_later { O.faults out.old ≤ O.faults out.new }
{
    source_is_checked();
    source_is_numbered();
    let checked = read_program(alloc, file, files)?;
    let call = find_call(alloc, &checked, question.name, question.values.as_slice())?;
    let done = evaluate(alloc, &checked, &call, question.calls)?;
    let value = done.value.print(alloc, &checked.program().names)?;
    print_evaluated(out, value.as_slice(), done.calls)?;
    Ok(())
}

/// The value of the call and the number of its calls. `Spent` exactly where it takes more calls than these.
fn evaluate(alloc: Global, checked: &Checked, call: &ClosedCall, calls: u64) -> Result<Done, End>
    requires { FitsProgram checked.now call.now }
    ensures { Evaluates checked.now call.now calls result }
{
    let code = compile(alloc, checked)?;
    let call = Call {
        def: call.def,
        funs: &[],
        args: call.values.as_slice(),
    };
    match run(alloc, &code, &call, calls) {
        Ok(done) => Ok(done),
        Err(RunEnd::Spent) => Err(End::Spent { event: 0 }),
        Err(RunEnd::NoMemory) => Err(End::NoMemory),
    }
}
