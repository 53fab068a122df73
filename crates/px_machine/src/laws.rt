ghost use Rattle.px_machine.specs.Examples.{RunsByHand};
ghost use Rattle.px_machine.specs.Laws.{RunsHaveOneEnd};

/// A run of a definition ends with at most one value and one number of calls.
pub fn runs_have_one_end()
    ensures { RunsHaveOneEnd }
{}

/// A small code leads forward, and what it gives, step by step: words are compared, a branch takes the place of the constructor's number, a
/// function parameter is called, and built-ins do not count.
pub fn runs_by_hand()
    ensures { RunsByHand }
{}
