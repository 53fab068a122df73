//! What is printed: the answer of a command that is done, or the one line of its refusal; and the number that the program ends with.
ghost use Rattle.std.specs.Prelude.{◌≡◌, ◌≤◌, ◌++◌, codes};
ghost use Rattle.std.specs.Fmt.{decimal};
ghost use Rattle.px_drive.specs.Messages.{checked_line, accepted_line, scope_words, type_words, why_words, argument_words, source_line, rejected_line, schedule_words, schedule_line, arguments_line, spent_line, evaluated_by, message_of, status_of, bytes_of_all};
ghost use Rattle.px_drive.specs.Answers.{Tells};
ghost use Rattle.px_drive.specs.Seen.{sink_seen, Writes};

use crate::{ArgumentKind, End, Outcome, SourceFault, Which};
use itoa::Buffer;
use px_replay::Why;
use px_schedule::ScheduleKind;
use px_scope::ScopeKind;
use px_terms::Program;
use px_types::TypeKind;
use px_world::{Sink, WriteFault, write_all};

/// The line of words that are no plain line.
const USAGE: &[u8] =
    b"usage: propel check F | replay F D | eval F NAME V.. [--calls N] | run F D S [--calls N]\n";

/// The status that the program ends with: 0 where the work is done, and a number of its own for each
/// kind of refusal.
pub fn status(outcome: &Outcome) -> u8
    ensures { result ≡ status_of outcome.now.end }
{
    match outcome.end {
        End::Done => 0,
        End::Usage => 2,
        End::Source(_) => 3,
        End::Rejected { .. } => 5,
        End::Schedule { .. } => 6,
        End::Spent { .. } => 7,
        End::ReadFault => 8,
        End::WriteFault => 9,
        End::NoMemory => 10,
        End::TooLong { .. } => 11,
        End::Arguments { .. } => 13,
    }
}

/// Writes the line of an end, with its line feed. Where the work is done there is none.
fn write_message<E: Sink>(end: End, err: &mut E) -> Result<(), WriteFault>
    ensures writes { Writes (message_of end) (sink_seen E.Sink err.old err.new) result }
    ensures later { E.faults err.old ≤ E.faults err.new }
{
    match end {
        End::Done => write_line(err, b""),
        End::Usage => write_line(err, USAGE),
        End::Source(fault) => write_source(fault, err),
        End::Rejected { line, why } => write_rejected(line, why, err),
        End::Schedule { line, kind } => write_schedule_fault(line, kind, err),
        End::Spent { event } => write_spent(event, err),
        End::ReadFault => write_line(err, b"read fault\n"),
        End::WriteFault => write_line(err, b"write fault\n"),
        End::NoMemory => write_line(err, b"no memory\n"),
        End::TooLong { text } => match text {
            Which::Program => write_line(err, b"too long: program\n"),
            Which::Derivation => write_line(err, b"too long: derivation\n"),
            Which::Schedule => write_line(err, b"too long: schedule\n"),
        },
        End::Arguments { kind, word } => write_arguments(kind, word, err),
    }
}

/// Writes the line of a text that is no program.
fn write_source<E: Sink>(fault: SourceFault, err: &mut E) -> Result<(), WriteFault>
    ensures writes { Writes (source_line fault) (sink_seen E.Sink err.old err.new) result }
    ensures later { E.faults err.old ≤ E.faults err.new }
{
    match fault {
        SourceFault::Lex { at } => write_place(b"source: lex at ", at, err),
        SourceFault::Parse { at } => write_place(b"source: parse at ", at, err),
        SourceFault::Scope { kind, at } => {
            write_rule(b"source: scope ", rule_of_scope(kind), at, err)
        }
        SourceFault::Typing { kind, at } => {
            write_rule(b"source: type ", rule_of_typing(kind), at, err)
        }
        SourceFault::Descent { def, call } => write_descent(def, call, err),
    }
}

/// Writes these bytes, a rule, the place that breaks it, and a line feed.
fn write_rule<E: Sink>(before: &[u8], rule: &str, at: u32, err: &mut E) -> Result<(), WriteFault>
    ensures writes { Writes (before.now ++ (rule.now ++ (codes " at " ++ (decimal at ++ codes "\n")))) (sink_seen E.Sink err.old err.new) result }
    ensures later { E.faults err.old ≤ E.faults err.new }
{
    let mut digits = Buffer::new();
    write_pieces(
        err,
        &[
            before,
            rule.as_bytes(),
            b" at ",
            digits.format(at).as_bytes(),
            b"\n",
        ],
    )
}

/// Writes the line of a definition that doesn't descend.
fn write_descent<E: Sink>(def: u32, call: u32, err: &mut E) -> Result<(), WriteFault>
    ensures writes { Writes (source_line (SourceFault.Descent def call)) (sink_seen E.Sink err.old err.new) result }
    ensures later { E.faults err.old ≤ E.faults err.new }
{
    let mut definition = Buffer::new();
    let mut number = Buffer::new();
    write_pieces(
        err,
        &[
            b"source: descent definition ",
            definition.format(def).as_bytes(),
            b" call ",
            number.format(call).as_bytes(),
            b"\n",
        ],
    )
}

/// Writes the line of a derivation that is refused.
fn write_rejected<E: Sink>(line: u64, why: Why, err: &mut E) -> Result<(), WriteFault>
    ensures writes { Writes (rejected_line line why) (sink_seen E.Sink err.old err.new) result }
    ensures later { E.faults err.old ≤ E.faults err.new }
{
    let mut number = Buffer::new();
    write_pieces(
        err,
        &[
            b"rejected: line ",
            number.format(line).as_bytes(),
            b" ",
            words_of(why).as_bytes(),
            b"\n",
        ],
    )
}

/// Writes the line of a schedule that is refused.
fn write_schedule_fault<E: Sink>(
    line: u64,
    kind: ScheduleKind,
    err: &mut E,
) -> Result<(), WriteFault>
    ensures writes { Writes (schedule_line line kind) (sink_seen E.Sink err.old err.new) result }
    ensures later { E.faults err.old ≤ E.faults err.new }
{
    let mut number = Buffer::new();
    write_pieces(
        err,
        &[
            b"schedule: line ",
            number.format(line).as_bytes(),
            b" ",
            rule_of_schedule(kind).as_bytes(),
            b"\n",
        ],
    )
}

/// A rule of schedules, in words.
fn rule_of_schedule(kind: ScheduleKind) -> &'static str
    ensures { result.now ≡ schedule_words kind }
{
    match kind {
        ScheduleKind::Form => "form",
        ScheduleKind::UnknownReplicaType => "unknown-replica-type",
        ScheduleKind::NoSuchReplica => "no-such-replica",
        ScheduleKind::NoSuchMessage => "no-such-message",
        ScheduleKind::BadValue => "bad-value",
        ScheduleKind::TooMany => "too-many",
    }
}

/// Writes the line of a call that takes too many calls.
fn write_spent<E: Sink>(event: u64, err: &mut E) -> Result<(), WriteFault>
    ensures writes { Writes (spent_line event) (sink_seen E.Sink err.old err.new) result }
    ensures later { E.faults err.old ≤ E.faults err.new }
{
    let mut digits = Buffer::new();
    write_pieces(
        err,
        &[b"spent: event ", digits.format(event).as_bytes(), b"\n"],
    )
}

/// Writes the line of arguments that are refused.
fn write_arguments<E: Sink>(kind: ArgumentKind, word: u32, err: &mut E) -> Result<(), WriteFault>
    ensures writes { Writes (arguments_line kind word) (sink_seen E.Sink err.old err.new) result }
    ensures later { E.faults err.old ≤ E.faults err.new }
{
    let mut number = Buffer::new();
    write_pieces(
        err,
        &[
            b"arguments: ",
            cause_of(kind).as_bytes(),
            b" ",
            number.format(word).as_bytes(),
            b"\n",
        ],
    )
}

/// Why arguments are refused, in words.
fn cause_of(kind: ArgumentKind) -> &'static str
    ensures { result.now ≡ argument_words kind }
{
    match kind {
        ArgumentKind::NoSuchName => "no-such-name",
        ArgumentKind::NotPlain => "not-plain",
        ArgumentKind::Count => "count",
        ArgumentKind::BadValue => "bad-value",
    }
}

/// What is wrong with a line, in words.
fn words_of(why: Why) -> &'static str
    ensures { result.now ≡ why_words why }
{
    match why {
        Why::Form => "form",
        Why::Order => "order",
        Why::Rule => "rule",
        Why::End => "end",
    }
}

/// Writes these bytes, a place in decimal, and a line feed.
fn write_place<E: Sink>(before: &[u8], at: u32, err: &mut E) -> Result<(), WriteFault>
    ensures writes { Writes (before.now ++ (decimal at ++ codes "\n")) (sink_seen E.Sink err.old err.new) result }
    ensures later { E.faults err.old ≤ E.faults err.new }
{
    let mut digits = Buffer::new();
    write_pieces(err, &[before, digits.format(at).as_bytes(), b"\n"])
}

/// A rule of scope, in words.
fn rule_of_scope(kind: ScopeKind) -> &'static str
    ensures { result.now ≡ scope_words kind }
{
    match kind {
        ScopeKind::Unknown => "unknown",
        ScopeKind::Repeated => "repeated",
        ScopeKind::Later => "later",
        ScopeKind::WrongPlace => "wrong-place",
    }
}

/// A rule of typing, in words.
fn rule_of_typing(kind: TypeKind) -> &'static str
    ensures { result.now ≡ type_words kind }
{
    match kind {
        TypeKind::Mismatch => "mismatch",
        TypeKind::Arity => "arity",
        TypeKind::ArmMissing => "arm-missing",
        TypeKind::ArmRepeated => "arm-repeated",
        TypeKind::LacksProperty => "lacks-property",
        TypeKind::PropertyShape => "property-shape",
        TypeKind::NotJoin => "not-join",
        TypeKind::Oversize => "oversize",
    }
}

/// Writes the line of an end, and answers the end that the command has by then: this one, or a fault of
/// writing where the line wasn't written whole. Where the work is done nothing is written.
pub(crate) fn report<E: Sink>(end: End, err: &mut E) -> End
    ensures tells { Tells end (sink_seen E.Sink err.old err.new) result }
    ensures later { E.faults err.old ≤ E.faults err.new }
{
    if end == End::Done {
        return end;
    }
    match write_message(end, err) {
        Ok(()) => end,
        Err(_) => End::WriteFault,
    }
}

/// Writes how many datatypes, definitions and obligations the program has; `Bool` isn't counted.
pub(crate) fn print_checked<O: Sink>(out: &mut O, program: &Program) -> Result<(), WriteFault>
    ensures writes { Writes (checked_line program.now) (sink_seen O.Sink out.old out.new) result }
    ensures later { O.faults out.old ≤ O.faults out.new }
{
    let mut datatypes = Buffer::new();
    let mut definitions = Buffer::new();
    let mut obligations = Buffer::new();
    write_pieces(
        out,
        &[
            b"checked: datatypes ",
            datatypes
                .format(program.datatypes.len().saturating_sub(1))
                .as_bytes(),
            b", definitions ",
            definitions.format(program.defs.len()).as_bytes(),
            b", obligations ",
            obligations.format(program.declared.len()).as_bytes(),
            b"\n",
        ],
    )
}

/// Writes how many obligations were accepted.
pub(crate) fn print_accepted<O: Sink>(out: &mut O, obligations: u32) -> Result<(), WriteFault>
    ensures writes { Writes (accepted_line obligations) (sink_seen O.Sink out.old out.new) result }
    ensures later { O.faults out.old ≤ O.faults out.new }
{
    let mut digits = Buffer::new();
    write_pieces(
        out,
        &[b"accepted ", digits.format(obligations).as_bytes(), b"\n"],
    )
}

/// Writes the text of a value, and the number of calls that it took on a line of its own.
pub(crate) fn print_evaluated<O: Sink>(
    out: &mut O,
    value: &[u8],
    calls: u64,
) -> Result<(), WriteFault>
    ensures writes { Writes (evaluated_by value.now calls) (sink_seen O.Sink out.old out.new) result }
    ensures later { O.faults out.old ≤ O.faults out.new }
{
    let mut digits = Buffer::new();
    write_pieces(
        out,
        &[value, b"\ncalls ", digits.format(calls).as_bytes(), b"\n"],
    )
}

/// Writes the bytes of a line.
pub(crate) fn write_line<S: Sink>(sink: &mut S, line: &[u8]) -> Result<(), WriteFault>
    ensures writes { Writes line.now (sink_seen S.Sink sink.old sink.new) result }
    ensures later { S.faults sink.old ≤ S.faults sink.new }
{
    write_all(sink, line)
}

/// Writes the pieces one after the other.
fn write_pieces<S: Sink>(sink: &mut S, pieces: &[&[u8]]) -> Result<(), WriteFault>
    ensures writes { Writes (bytes_of_all pieces.now) (sink_seen S.Sink sink.old sink.new) result }
    ensures later { S.faults sink.old ≤ S.faults sink.new }
{
    for piece in pieces {
        if let Err(fault) = write_line(sink, piece) {
            return Err(fault);
        }
    }
    Ok(())
}
