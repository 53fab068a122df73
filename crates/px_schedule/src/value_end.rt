use px_base::NoMemory;
use std::alloc::AllocError;

/// Why no value was read.
#[derive(Clone, Copy, Debug, PartialEq, Eq)]
pub enum ValueEnd {
    /// The text is no value of the type, or one with more than `VALUE_NODES` nodes.
    Fault,
    /// No memory was left.
    NoMemory,
}

impl From<NoMemory> for ValueEnd {
    ghost use Rattle.std.specs.Prelude.{◌≡◌};
    ghost use Rattle.px_schedule.specs.declared.value_end.ValueEnd.TheVariants.{NoMemory};

    ghost from_gives = { λ _ end. end ≡ NoMemory };

    fn from(_error: NoMemory) -> ValueEnd {
        ValueEnd::NoMemory
    }
}

impl From<AllocError> for ValueEnd {
    ghost use Rattle.std.specs.Prelude.{◌≡◌};
    ghost use Rattle.px_schedule.specs.declared.value_end.ValueEnd.TheVariants.{NoMemory};

    ghost from_gives = { λ _ end. end ≡ NoMemory };

    fn from(_error: AllocError) -> ValueEnd {
        ValueEnd::NoMemory
    }
}
