ghost use Rattle.std.specs.Prelude.{◌≡◌};
ghost use Rattle.px_types.specs.declared.ends.TypeEnd.TheVariants as ends;

use px_base::NoMemory;
use std::alloc::{AllocError, AllocFailed};

/// Which rule of typing a part breaks.
#[derive(Clone, Copy, Debug, PartialEq, Eq)]
pub enum TypeKind {
    /// A part's type isn't the wanted one.
    Mismatch,
    /// A wrong number of type arguments, functions, arguments, fields or pattern variables.
    Arity,
    /// A constructor of the datatype has no arm.
    ArmMissing,
    /// A constructor stands in a second arm.
    ArmRepeated,
    /// A function argument lacks a property of the wanted type.
    LacksProperty,
    /// A property doesn't fit the type, or its clause has too many data variables.
    PropertyShape,
    /// A replica's merge joins no states.
    NotJoin,
    /// A type that is met, or a lemma, is over the limits.
    Oversize,
}

/// Why a written program was not typed: the first part that breaks a rule, with the rule and the part's first byte; or no memory
/// was left.
#[derive(Clone, Copy, Debug, PartialEq, Eq)]
pub enum TypeEnd {
    Fault { kind: TypeKind, at: u32 },
    NoMemory,
}

impl From<NoMemory> for TypeEnd {
    ghost from_gives = { λ _ end. end ≡ ends.NoMemory };

    fn from(_end: NoMemory) -> TypeEnd {
        TypeEnd::NoMemory
    }
}

impl From<AllocError> for TypeEnd {
    ghost from_gives = { λ _ end. end ≡ ends.NoMemory };

    fn from(_end: AllocError) -> TypeEnd {
        TypeEnd::NoMemory
    }
}

impl<T: Drop> From<AllocFailed<T>> for TypeEnd {
    ghost from_gives = { λ _ end. end ≡ ends.NoMemory };

    fn from(_end: AllocFailed<T>) -> TypeEnd {
        TypeEnd::NoMemory
    }
}
