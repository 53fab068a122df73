//! Why a sequent has no such cases.
ghost use Rattle.std.specs.Prelude.{◌≡◌};
ghost use Rattle.px_cases.specs.declared.ends.SplitEnd.TheVariants as ends;

use px_terms::NoMemory;
use px_types::NotTyped;
use std::alloc::AllocError;

/// Why there are no such children. Where several hold, the first in this order is said.
#[derive(Clone, Copy, Debug, PartialEq, Eq)]
pub enum SplitEnd {
    /// The variable is not live, or its type is no datatype; the term has a match, or a type that is no datatype.
    NotData,
    /// The term has no type.
    IllTyped,
    /// The number is no fact's.
    NoSuchFact,
    /// The sides of the fact are not one constructor.
    NotSameHead,
    /// A child would be over the limits of a sequent.
    Oversize,
    /// No memory was left.
    NoMemory,
}

impl From<NoMemory> for SplitEnd {
    ghost from_gives = { λ _ end. end ≡ ends.NoMemory };

    fn from(_end: NoMemory) -> SplitEnd {
        SplitEnd::NoMemory
    }
}

impl From<AllocError> for SplitEnd {
    ghost from_gives = { λ _ end. end ≡ ends.NoMemory };

    fn from(_end: AllocError) -> SplitEnd {
        SplitEnd::NoMemory
    }
}

impl From<NotTyped> for SplitEnd {
    ghost use Rattle.px_cases.specs.Ends.{end_of};

    ghost from_gives = { λ found end. end ≡ end_of found };

    fn from(found: NotTyped) -> SplitEnd {
        match found {
            NotTyped::IllTyped => SplitEnd::IllTyped,
            NotTyped::NoMemory => SplitEnd::NoMemory,
        }
    }
}

/// The number is no fact's.
#[derive(Clone, Copy, Debug, PartialEq, Eq)]
pub struct NoSuchFact;
