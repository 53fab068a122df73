//! What is said of replays, as functions whose contracts are these laws.
ghost use Rattle.px_replay.specs.Laws.{EndsAreDerivations, OneState, PartialsAreTrees, PartialsBegin};

use px_derive::one_row;
use px_soundness::{one_clause, one_opening, stack_is_tree};

/// Lines lead to at most one state.
pub fn one_state()
    ensures { OneState }
{
    one_row();
    one_opening();
    one_clause();
}

/// Lines lead to the end exactly where they are those of a derivation's trees, each after its header.
pub fn ends_are_derivations()
    ensures { EndsAreDerivations }
{
    stack_is_tree();
}

/// What begins a partial derivation's text is one itself: so there is a least line from which on none is.
pub fn partials_begin()
    ensures { PartialsBegin }
{}

/// Lines are a partial derivation exactly where they are those of trees of the first obligations, in order, and then maybe of
/// the header and the first rows of one more.
pub fn partials_are_trees()
    ensures { PartialsAreTrees }
{
    stack_is_tree();
}
