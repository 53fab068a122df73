//! What is said of the plain class, as functions whose contracts are these laws.
ghost use Rattle.px_prover.specs.Laws.{MoreSplitsFindMore, NormsAreMoves, OneBlocker, OneListOfLeafPairs, OneNormalForm, OneSettling};

/// Normalising a term has one result.
pub fn one_normal_form()
    ensures { OneNormalForm }
{}

/// Settling a branch has one result.
pub fn one_settling()
    ensures { OneSettling }
{}

/// A pair has one list of leaf pairs.
pub fn one_list_of_leaf_pairs()
    ensures { OneListOfLeafPairs }
{}

/// A branch has at most one blocker.
pub fn one_blocker()
    ensures { OneBlocker }
{}

/// What is plain with some splits is plain with more.
pub fn more_splits_find_more()
    ensures { MoreSplitsFindMore }
{}

/// A normal form is reached by moves, each within the room.
pub fn norms_are_moves()
    ensures { NormsAreMoves }
{}
