//! Texts cut at a byte.
ghost use Rattle.std.specs.Prelude.{Contains, MatchOption};
ghost use Rattle.px_schedule.specs.Fields.{IsCut};

use memchr::memchr;

/// The bytes before a byte, and those behind it.
#[derive(Clone, Copy)]
pub(crate) struct Cut<'t> {
    pub(crate) front: &'t [u8],
    pub(crate) back: &'t [u8],
}

/// Cuts the text at the first byte that is the mark; None where it has none.
pub(crate) fn cut_at(mark: u8, text: &[u8]) -> Option<Cut<'_>>
    ensures { MatchOption result (¬ Contains text.now mark) (λ cut. IsCut mark text.now cut.front.now cut.back.now) }
{
    match memchr(mark, text) {
        Some(at) => Some(Cut {
            front: &text[..at],
            back: &text[at + 1..],
        }),
        None => None,
    }
}
