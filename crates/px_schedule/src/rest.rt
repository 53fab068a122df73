//! The bytes that are left of a text, and what stands at their front.
use crate::runs::{Class, run};

/// The bytes that are left of a text.
#[derive(Clone, Copy)]
pub(crate) struct Rest<'t> {
    pub(crate) bytes: &'t [u8],
}

impl<'t> Rest<'t> {
    ghost use Rattle.std.specs.Prelude.{◌≡◌, ◌≢◌, ◌∷◌, List, ℕ, MatchOption};
    ghost use Rattle.px_schedule.specs.Runs.{left, IsRun};
    ghost use Rattle.px_schedule.specs.declared.runs.Class.TheVariants as classes;

    /// The bytes of the class at the front, all of them, and the bytes behind them.
    pub(crate) fn split_run(self, class: Class) -> (&'t [u8], Rest<'t>)
        ensures { IsRun class (left self.entry) result.0.now (left result.1) }
    {
        let end = run(class, self.bytes);
        let (front, bytes) = self.bytes.split_at(end);
        (front, Rest { bytes })
    }

    /// The bytes behind this one, where it is the first.
    pub(crate) fn past_mark(self, mark: u8) -> Option<Rest<'t>>
        ensures { MatchOption result ((rest : List ℕ) → left self.entry ≢ mark ∷ rest) (λ rest. left self.entry ≡ mark ∷ left rest) }
    {
        match self.bytes {
            [first, bytes @ ..] if *first == mark => Some(Rest { bytes }),
            _ => None,
        }
    }
}
