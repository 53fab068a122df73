//! Why a line, or what was fed, is no derivation.
ghost use Rattle.std.specs.Prelude.{◌≡◌};
ghost use Rattle.px_rewrite.specs.declared.steps.StepEnd.TheVariants as step_ends;
ghost use Rattle.px_cases.specs.declared.ends.SplitEnd.TheVariants as split_ends;
ghost use Rattle.px_replay.specs.declared.ends.RowEnd.TheVariants as row_ends;
ghost use Rattle.px_replay.specs.declared.ends.LineRefusal.TheVariants as refusals;
ghost use Rattle.px_replay.specs.Ends.{line_refusal, row_refusal};

use px_cases::SplitEnd;
use px_derive::LineEnd;
use px_rewrite::StepEnd;
use px_terms::NoMemory;
use std::alloc::AllocError;

/// What is wrong with a line. Where several are, the first in this order is said.
#[derive(Clone, Copy, Debug, PartialEq, Eq)]
pub enum Why {
    /// It is not the line of any row or header; the caller says so too of a line without its line feed.
    Form,
    /// A header stands where a row is due, a row where none is, a header with another number than the next obligation's,
    /// or anything after the last tree.
    Order,
    /// The row does not apply: its rule does not hold, a child is over the limits, or a header's list is no list of rising
    /// variables of the clause.
    Rule,
    /// The text ended with open sequents, or with obligations left.
    End,
}

/// Why a replay refuses.
#[derive(Clone, Copy, Debug, PartialEq, Eq)]
pub enum FeedEnd {
    /// This line, counted from 1, is wrong.
    Rejected { line: u64, why: Why },
    /// No memory was left.
    NoMemory,
}

/// A derivation was accepted.
#[derive(Clone, Copy, Debug, PartialEq, Eq)]
pub struct Accepted {
    /// How many obligations it derives: all that the program declares.
    pub obligations: u32,
}

/// Why a line was not taken, before it is said which line it is.
#[derive(Clone, Copy, Debug, PartialEq, Eq)]
pub(crate) enum LineRefusal {
    /// It is wrong.
    Wrong { why: Why },
    /// No memory was left.
    NoMemory,
}

/// Why a row left no children of a sequent.
#[derive(Clone, Copy, Debug, PartialEq, Eq)]
pub(crate) enum RowEnd {
    /// It does not apply.
    NoRule,
    /// No memory was left.
    NoMemory,
}

impl From<NoMemory> for RowEnd {
    ghost from_gives = { λ _ end. end ≡ row_ends.NoMemory };

    fn from(_end: NoMemory) -> RowEnd {
        RowEnd::NoMemory
    }
}

impl From<AllocError> for RowEnd {
    ghost from_gives = { λ _ end. end ≡ row_ends.NoMemory };

    fn from(_end: AllocError) -> RowEnd {
        RowEnd::NoMemory
    }
}

impl From<StepEnd> for RowEnd {
    ghost from_gives = { λ step_end end. step_end ≡ step_ends.NoMemory → end ≡ row_ends.NoMemory };

    fn from(end: StepEnd) -> RowEnd {
        match end {
            StepEnd::NoStep => RowEnd::NoRule,
            StepEnd::NoMemory => RowEnd::NoMemory,
        }
    }
}

impl From<SplitEnd> for RowEnd {
    ghost from_gives = { λ split_end end. split_end ≡ split_ends.NoMemory → end ≡ row_ends.NoMemory };

    fn from(end: SplitEnd) -> RowEnd {
        match end {
            SplitEnd::NotData
            | SplitEnd::IllTyped
            | SplitEnd::NoSuchFact
            | SplitEnd::NotSameHead
            | SplitEnd::Oversize => RowEnd::NoRule,
            SplitEnd::NoMemory => RowEnd::NoMemory,
        }
    }
}

impl From<NoMemory> for LineRefusal {
    ghost from_gives = { λ _ end. end ≡ refusals.NoMemory };

    fn from(_end: NoMemory) -> LineRefusal {
        LineRefusal::NoMemory
    }
}

impl From<AllocError> for LineRefusal {
    ghost from_gives = { λ _ end. end ≡ refusals.NoMemory };

    fn from(_end: AllocError) -> LineRefusal {
        LineRefusal::NoMemory
    }
}

impl From<LineEnd> for LineRefusal {
    ghost from_gives = { λ line_end end. end ≡ line_refusal line_end };

    fn from(end: LineEnd) -> LineRefusal {
        match end {
            LineEnd::Form => LineRefusal::Wrong { why: Why::Form },
            LineEnd::NoMemory => LineRefusal::NoMemory,
        }
    }
}

impl From<RowEnd> for LineRefusal {
    ghost from_gives = { λ row_end end. end ≡ row_refusal row_end };

    fn from(end: RowEnd) -> LineRefusal {
        match end {
            RowEnd::NoRule => LineRefusal::Wrong { why: Why::Rule },
            RowEnd::NoMemory => LineRefusal::NoMemory,
        }
    }
}
