ghost use Rattle.px_descent.specs.Laws.{LargestDecides, StuckExcludesDescent, OneFirstStuck};

/// A definition descends at some positions exactly where each self-call lowers a position that each self-call keeps: the
/// largest set that no self-call raises decides.
pub fn largest_decides()
    ensures { LargestDecides }
{}

/// Where there is a first self-call that is stuck, not every definition descends.
pub fn stuck_excludes_descent()
    ensures { StuckExcludesDescent }
{}

/// There is at most one first self-call that is stuck.
pub fn one_first_stuck()
    ensures { OneFirstStuck }
{}
