use crate::schedule_end::ScheduleKind;
use crate::value_end::ValueEnd;
use px_base::NoMemory;

/// Why a line was not taken.
#[derive(Clone, Copy, Debug, PartialEq, Eq)]
pub(crate) enum LineEnd {
    /// What the line breaks first.
    Fault(ScheduleKind),
    /// No memory was left.
    NoMemory,
}

impl From<NoMemory> for LineEnd {
    ghost use Rattle.std.specs.Prelude.{◌≡◌};
    ghost use Rattle.px_schedule.specs.declared.line_end.LineEnd.TheVariants.{NoMemory};

    ghost from_gives = { λ _ end. end ≡ NoMemory };

    fn from(_error: NoMemory) -> LineEnd {
        LineEnd::NoMemory
    }
}

impl From<ValueEnd> for LineEnd {
    ghost use Rattle.std.specs.Prelude.{◌≡◌};
    ghost use Rattle.px_schedule.specs.Fields.{of_value};

    ghost from_gives = { λ error end. end ≡ of_value error };

    fn from(error: ValueEnd) -> LineEnd {
        match error {
            ValueEnd::Fault => LineEnd::Fault(ScheduleKind::BadValue),
            ValueEnd::NoMemory => LineEnd::NoMemory,
        }
    }
}
