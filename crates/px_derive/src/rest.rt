//! The bytes that are left of a line, and what stands at their front.
use crate::line_end::LineEnd;
use crate::numbers::{number_of, small};
use crate::runs::{Class, run};

/// The bytes that are left of a line.
#[derive(Clone, Copy)]
pub(crate) struct Rest<'t> {
    pub(crate) bytes: &'t [u8],
}

impl<'t> Rest<'t> {
    ghost use Rattle.std.specs.Prelude.{◌≡◌, ◌^◌, Some, None, MatchOption};
    ghost use Rattle.std.specs.Char.{is_ascii_digit, is_ascii_uppercase};
    ghost use Rattle.px_derive.specs.Gives.{left, Gives, Passes};
    ghost use Rattle.px_derive.specs.Readers.{past, skip, begins, number_at};
    ghost use Rattle.px_derive.specs.Reading.{word_at};

    /// The bytes after this word, where they begin with it.
    pub(crate) fn past(self, word: &[u8]) -> Option<Rest<'t>>
        ensures { MatchOption result (past word.now (left self.entry) ≡ None) (λ rest. past word.now (left self.entry) ≡ Some (left rest)) }
    {
        match self.bytes.strip_prefix(word) {
            Some(bytes) => Some(Rest { bytes }),
            None => None,
        }
    }

    /// The bytes after this word. Other bytes are no line's.
    #[tactic(auto, unfolding(crate::specs::Readers::skip))]
    pub(crate) fn skip(self, word: &[u8]) -> Result<Rest<'t>, LineEnd>
        ensures { Passes result (skip word.now (left self.entry)) }
    {
        match self.past(word) {
            Some(rest) => Ok(rest),
            None => Err(LineEnd::Form),
        }
    }

    /// Whether a digit is at the front.
    pub(crate) fn begins_digit(self) -> bool
        ensures { result ≡ begins is_ascii_digit (left self.entry) }
    {
        match self.bytes {
            [first, ..] => first.is_ascii_digit(),
            [] => false,
        }
    }

    /// Whether a capital letter is at the front.
    pub(crate) fn begins_upper(self) -> bool
        ensures { result ≡ begins is_ascii_uppercase (left self.entry) }
    {
        match self.bytes {
            [first, ..] => first.is_ascii_uppercase(),
            [] => false,
        }
    }

    /// The letters, digits and `_` at the front, and the bytes after them.
    pub(crate) fn word(self) -> (&'t [u8], Rest<'t>)
        ensures { word_at (left self.entry) ≡ Some (result.0.now, left result.1) }
    {
        let end = run(Class::NamePart, self.bytes);
        let (word, bytes) = self.bytes.split_at(end);
        (word, Rest { bytes })
    }

    /// The number at the front, which is at most 2^64 - 1, and the bytes after it.
    pub(crate) fn literal(self) -> Result<(u64, Rest<'t>), LineEnd>
        ensures { Gives result (number_at (2 ^ 64) (left self.entry)) }
    {
        let end = run(Class::Digit, self.bytes);
        let (digits, bytes) = self.bytes.split_at(end);
        match number_of(digits) {
            Some(number) => Ok((number, Rest { bytes })),
            None => Err(LineEnd::Form),
        }
    }

    /// The number at the front, which is at most 2^32 - 1, and the bytes after it.
    pub(crate) fn number(self) -> Result<(u32, Rest<'t>), LineEnd>
        ensures { Gives result (number_at (2 ^ 32) (left self.entry)) }
    {
        let (number, rest) = self.literal()?;
        match small(number) {
            Some(number) => Ok((number, rest)),
            None => Err(LineEnd::Form),
        }
    }
}
