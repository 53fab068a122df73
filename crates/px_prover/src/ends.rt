//! Why there is no derivation.

ghost use Rattle.std.specs.Prelude.{◌≡◌};
ghost use Rattle.px_prover.specs.declared.ends.ProveEnd.TheVariants as ends;

use px_terms::NoMemory;

/// Why there is no derivation.
#[derive(Clone, Copy, Debug, PartialEq, Eq)]
pub enum ProveEnd {
    /// No derivation of this obligation was found, and one of each obligation before it.
    Unproved { obligation: u32 },
    /// No memory was left.
    NoMemory,
}

impl From<NoMemory> for ProveEnd {
    ghost from_gives = { λ _ end. end ≡ ends.NoMemory };

    fn from(_end: NoMemory) -> ProveEnd {
        ProveEnd::NoMemory
    }
}
