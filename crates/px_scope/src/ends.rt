use std::alloc::{AllocError, AllocFailed};

/// The rule of scope that a name breaks.
#[derive(Clone, Copy, Debug, PartialEq, Eq)]
pub enum ScopeKind {
    /// The name is declared nowhere.
    Unknown,
    /// The name is declared already, or a property is claimed already.
    Repeated,
    /// The name is declared only later in the text.
    Later,
    /// What the name stands for may not stand at its place.
    WrongPlace,
}

/// Why there is no numbered program.
#[derive(Clone, Copy, Debug, PartialEq, Eq)]
pub enum ScopeEnd {
    /// The name at this place is the first that breaks a rule, and this is the first rule that it breaks.
    Fault { kind: ScopeKind, at: u32 },
    /// No memory was left.
    NoMemory,
}

impl From<AllocError> for ScopeEnd {
    ghost use Rattle.std.specs.Prelude.{◌≡◌};
    ghost use Rattle.px_scope.specs.declared.ends.ScopeEnd.TheVariants.{NoMemory};

    ghost from_gives = { λ _ end. end ≡ NoMemory };

    fn from(_error: AllocError) -> ScopeEnd {
        ScopeEnd::NoMemory
    }
}

impl<T: Drop> From<AllocFailed<T>> for ScopeEnd {
    ghost use Rattle.std.specs.Prelude.{◌≡◌};
    ghost use Rattle.px_scope.specs.declared.ends.ScopeEnd.TheVariants.{NoMemory};

    ghost from_gives = { λ _ end. end ≡ NoMemory };

    fn from(_error: AllocFailed<T>) -> ScopeEnd {
        ScopeEnd::NoMemory
    }
}
