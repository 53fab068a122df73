use std::alloc::{AllocError, AllocFailed};

/// Why a run gave no value.
#[derive(Clone, Copy, Debug, PartialEq, Eq)]
pub enum RunEnd {
    /// The run takes more calls than the budget.
    Spent,
    /// No memory was left.
    NoMemory,
}

impl From<px_base::NoMemory> for RunEnd {
    ghost use Rattle.std.specs.Prelude.{◌≡◌};
    ghost use Rattle.px_machine.specs.declared.run_end.RunEnd.TheVariants.{NoMemory};

    ghost from_gives = { λ _ end. end ≡ NoMemory };

    fn from(_error: px_base::NoMemory) -> RunEnd {
        RunEnd::NoMemory
    }
}

impl From<AllocError> for RunEnd {
    ghost use Rattle.std.specs.Prelude.{◌≡◌};
    ghost use Rattle.px_machine.specs.declared.run_end.RunEnd.TheVariants.{NoMemory};

    ghost from_gives = { λ _ end. end ≡ NoMemory };

    fn from(_error: AllocError) -> RunEnd {
        RunEnd::NoMemory
    }
}

impl<T: Drop> From<AllocFailed<T>> for RunEnd {
    ghost use Rattle.std.specs.Prelude.{◌≡◌};
    ghost use Rattle.px_machine.specs.declared.run_end.RunEnd.TheVariants.{NoMemory};

    ghost from_gives = { λ _ end. end ≡ NoMemory };

    fn from(_failed: AllocFailed<T>) -> RunEnd {
        RunEnd::NoMemory
    }
}
