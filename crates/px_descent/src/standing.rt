ghost use Rattle.std.specs.Prelude.{◌≡◌, ◌⊎◌, ◌↔◌, IsTrue};
ghost use Rattle.px_terms.specs.Descent.{under, itself, below};
ghost use Rattle.px_descent.specs.Around.{standing_of};

/// What a term is to the parameters of the definition in whose body it stands: the parameter of this position itself, a
/// variable below it, or neither.
#[derive(Clone, Copy)]
pub(crate) enum Standing {
    Itself(u32),
    Below(u32),
    Elsewhere,
}

impl Standing {
    /// What the variables of a pattern are, where the match is on this.
    pub(crate) fn under(self) -> Standing
        ensures { standing_of result ≡ under (standing_of self) }
    {
        match self {
            Standing::Itself(position) | Standing::Below(position) => Standing::Below(position),
            Standing::Elsewhere => Standing::Elsewhere,
        }
    }

    /// Whether it is the parameter of this position, or below it.
    pub(crate) fn is_within(self, position: usize) -> bool
        ensures { IsTrue result ↔ ((standing_of self ≡ itself position) ⊎ (standing_of self ≡ below position)) }
    {
        match self {
            Standing::Itself(own) | Standing::Below(own) => own as usize == position,
            Standing::Elsewhere => false,
        }
    }
}
