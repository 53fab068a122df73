use px_base::NoMemory;
use std::alloc::AllocError;

/// What a line of a schedule breaks.
#[derive(Clone, Copy, Debug, PartialEq, Eq)]
pub enum ScheduleKind {
    /// The line has no form that may stand there, or no line feed.
    Form,
    /// The name is that of no replica declaration.
    UnknownReplicaType,
    /// There is no replica of this number.
    NoSuchReplica,
    /// No message of this number was sent before.
    NoSuchMessage,
    /// The text is no value of the state's type, or one with more than `VALUE_NODES` nodes.
    BadValue,
    /// The number of replicas is not 1 to `REPLICAS`, or the line holds one event more than `EVENTS`.
    TooMany,
}

/// Why no schedule was read.
#[derive(Clone, Copy, Debug, PartialEq, Eq)]
pub enum ScheduleEnd {
    /// The first line that breaks a rule, counted from 1, and what it breaks first.
    Fault { line: u64, kind: ScheduleKind },
    /// No memory was left.
    NoMemory,
}

impl From<NoMemory> for ScheduleEnd {
    ghost use Rattle.std.specs.Prelude.{◌≡◌};
    ghost use Rattle.px_schedule.specs.declared.schedule_end.ScheduleEnd.TheVariants.{NoMemory};

    ghost from_gives = { λ _ end. end ≡ NoMemory };

    fn from(_error: NoMemory) -> ScheduleEnd {
        ScheduleEnd::NoMemory
    }
}

impl From<AllocError> for ScheduleEnd {
    ghost use Rattle.std.specs.Prelude.{◌≡◌};
    ghost use Rattle.px_schedule.specs.declared.schedule_end.ScheduleEnd.TheVariants.{NoMemory};

    ghost from_gives = { λ _ end. end ≡ NoMemory };

    fn from(_error: AllocError) -> ScheduleEnd {
        ScheduleEnd::NoMemory
    }
}
