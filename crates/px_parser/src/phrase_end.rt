use std::alloc::{AllocError, AllocFailed};

/// Why nothing was read.
#[derive(Clone, Copy, Debug, PartialEq, Eq)]
pub(crate) enum PhraseEnd {
    /// So many tokens are left at the first one that fits nothing.
    Fault { left: usize },
    /// No memory was left.
    NoMemory,
}

impl From<AllocError> for PhraseEnd {
    ghost use Rattle.std.specs.Prelude.{◌≡◌};
    ghost use Rattle.px_parser.specs.declared.phrase_end.PhraseEnd.TheVariants.{NoMemory};

    ghost from_gives = { λ _ end. end ≡ NoMemory };

    fn from(_error: AllocError) -> PhraseEnd {
        PhraseEnd::NoMemory
    }
}

impl<T: Drop> From<AllocFailed<T>> for PhraseEnd {
    ghost use Rattle.std.specs.Prelude.{◌≡◌};
    ghost use Rattle.px_parser.specs.declared.phrase_end.PhraseEnd.TheVariants.{NoMemory};

    ghost from_gives = { λ _ end. end ≡ NoMemory };

    fn from(_error: AllocFailed<T>) -> PhraseEnd {
        PhraseEnd::NoMemory
    }
}
