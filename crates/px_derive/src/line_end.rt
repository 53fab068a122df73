use std::alloc::{AllocError, AllocFailed};

/// Why no row was read.
#[derive(Clone, Copy, Debug, PartialEq, Eq)]
pub enum LineEnd {
    /// The line is no row's and no header's.
    Form,
    /// No memory was left.
    NoMemory,
}

impl From<AllocError> for LineEnd {
    ghost use Rattle.std.specs.Prelude.{◌≡◌};
    ghost use Rattle.px_derive.specs.declared.line_end.LineEnd.TheVariants.{NoMemory};

    ghost from_gives = { λ _ end. end ≡ NoMemory };

    fn from(_error: AllocError) -> LineEnd {
        LineEnd::NoMemory
    }
}

impl<T: Drop> From<AllocFailed<T>> for LineEnd {
    ghost use Rattle.std.specs.Prelude.{◌≡◌};
    ghost use Rattle.px_derive.specs.declared.line_end.LineEnd.TheVariants.{NoMemory};

    ghost from_gives = { λ _ end. end ≡ NoMemory };

    fn from(_error: AllocFailed<T>) -> LineEnd {
        LineEnd::NoMemory
    }
}
