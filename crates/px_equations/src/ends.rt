//! Why there is no instance of a clause.

ghost use Rattle.std.specs.Prelude.{◌≡◌};
ghost use Rattle.px_equations.specs.declared.ends.InstanceEnd.TheVariants as ends;

use px_terms::NoMemory;

/// Why there is no instance.
#[derive(Clone, Copy, Debug, PartialEq, Eq)]
pub enum InstanceEnd {
    /// What is put in does not fit the clause.
    IllTyped,
    /// No memory was left.
    NoMemory,
}

impl From<NoMemory> for InstanceEnd {
    ghost from_gives = { λ _ end. end ≡ ends.NoMemory };

    fn from(_end: NoMemory) -> InstanceEnd {
        InstanceEnd::NoMemory
    }
}
