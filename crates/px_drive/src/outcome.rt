//! What a command is, and how it ends.
use px_replay::Why;
use px_schedule::ScheduleKind;
use px_scope::ScopeKind;
use px_terms::Text;
use px_types::TypeKind;
use sqlite_items::Items;

/// A plain line: the command that the words are, with its arguments.
#[derive(Drop)]
pub enum CommandLine {
    /// `check F`: reads the program in the file F.
    Check {
        file: Text,
    },
    /// `replay F D`: replays the derivation in the file D of the program in the file F.
    Replay {
        file: Text,
        derivation: Text,
    },
    /// `eval F NAME V.. [--calls N]`: evaluates the call of the definition NAME of the program in the file F on the values V, within
    /// N calls.
    Eval {
        file: Text,
        name: Text,
        values: Items<Text>,
        calls: u64,
    },
    /// `run F D S [--calls N]`: replays the derivation in the file D of the program in the file F, and runs the replicas of the schedule
    /// in the file S, each merge within N calls.
    Run {
        file: Text,
        derivation: Text,
        schedule: Text,
        calls: u64,
    },
}

/// Why a program's text was refused, by the first layer that refuses it.
#[derive(Clone, Copy, Debug, PartialEq, Eq)]
pub enum SourceFault {
    /// At this byte of the text no token begins.
    Lex { at: u32 },
    /// The token that begins at this byte is the first through which no program begins; or the byte is the text's
    /// end, and only that is wrong.
    Parse { at: u32 },
    /// The name that begins at this byte is the first that breaks a rule of scope, and this is the first rule that
    /// it breaks.
    Scope { kind: ScopeKind, at: u32 },
    /// The part that begins at this byte is the first that breaks a rule of typing, and this is the rule.
    Typing { kind: TypeKind, at: u32 },
    /// The definition of this number is the first that doesn't descend, and this is the number of its first self-call
    /// that lowers no position, of those that no self-call of it raises; or 2^32 - 1 where that number is greater.
    Descent { def: u32, call: u32 },
}

/// A text that a command reads.
#[derive(Clone, Copy, Debug, PartialEq, Eq)]
pub enum Which {
    /// The program's text, the first word after the command.
    Program,
    /// The derivation's text, the second word after `replay` and after `run`.
    Derivation,
    /// The schedule's text, the third word after `run`.
    Schedule,
}

/// Why the arguments of `eval` were refused; the first cause in this order is told.
#[derive(Clone, Copy, Debug, PartialEq, Eq)]
pub enum ArgumentKind {
    /// The program has no definition of this name.
    NoSuchName,
    /// The definition has type parameters or function parameters.
    NotPlain,
    /// The definition has more or fewer data parameters.
    Count,
    /// A word is no value of its parameter's type, or one with more than `VALUE_NODES` nodes, or has more than `SCHEDULE_BYTES` bytes.
    BadValue,
}

/// How a command ends.
#[derive(Clone, Copy, Debug, PartialEq, Eq)]
pub enum End {
    /// The work is done and its answer is printed.
    Done,
    /// The words are no plain line.
    Usage,
    /// The program's text was refused.
    Source(SourceFault),
    /// The derivation's text was refused: the line of this number, from 1, is the first with which the lines are no partial
    /// derivation of the program any more, or has no line feed, or is the one behind the last, where lines are missing; and
    /// this is what is wrong with it.
    Rejected { line: u64, why: Why },
    /// The schedule's text was refused: the line of this number, from 1, is the first that breaks a rule, and this is the first rule
    /// that it breaks.
    Schedule { line: u64, kind: ScheduleKind },
    /// The call takes more calls than it may make. For `eval` the event is 0; for `run` it is the number of the event, from 1, whose
    /// merge it is.
    Spent { event: u64 },
    /// Opening or reading a text failed. The files' count of faults rose.
    ReadFault,
    /// A write failed. The count of faults of the output or of the errors rose.
    WriteFault,
    /// No memory was left.
    NoMemory,
    /// The text is longer than it may be.
    TooLong { text: Which },
    /// The arguments of `eval` were refused. `word` is the number of the first bad value, from 0; it is 0 for every other cause.
    Arguments { kind: ArgumentKind, word: u32 },
}

/// The line that was read, and how the command ended. There is no line where the words are no plain line,
/// and where memory ran out while they were read.
#[derive(Drop)]
pub struct Outcome {
    /// The line that the words are.
    pub line: Option<CommandLine>,
    /// How the command ended.
    pub end: End,
}
