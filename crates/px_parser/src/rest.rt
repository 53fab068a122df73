//! The tokens that are left, and what stands at their front.
ghost use Rattle.std.specs.Prelude.{IsTrue};
ghost use Rattle.std.specs.List.{list_all};
ghost use Rattle.px_parser.specs.Readable.{is_readable};

use crate::names::name_of;
use crate::phrase_end::PhraseEnd;
use crate::surface::{Name, SExpr, SExprKind};
use px_base::RawProp;
use px_lexer::{Key, Mark, Token, TokenKind};
use std::alloc::Global;

/// The tokens that are left of a text.
#[derive(Clone, Copy)]
pub(crate) struct Rest<'t> {
    pub(crate) text: &'t [u8],
    pub(crate) tokens: &'t [Token],
    ghost are_readable: { IsTrue (list_all (is_readable text.now) tokens.now) },
}

impl<'t> Rest<'t> {
    ghost use Rattle.std.specs.Prelude.{◌≡◌, [], ◌∷◌, length, map, IfSome, IfNone, MatchOption, IfOk, IfErr, Ok, Err, true, false, not};
    ghost use Rattle.px_parser.specs.Words.{word_of, words_of};
    ghost use Rattle.px_parser.specs.Gives.{words, Gives, Passes};
    ghost use Rattle.px_parser.specs.Reading.{mark_at, key_at, lower_at, upper_at, property_at, number_at, comma_property, some_word};
    ghost use Rattle.px_parser.specs.Kinds.{is_mark, is_key, is_number, is_upper, is_lower, is_property, fronts};

    /// The fault at the first of these tokens.
    pub(crate) fn fault(self) -> PhraseEnd
        ensures { result ≡ PhraseEnd.Fault (length (words self.entry)) }
    {
        PhraseEnd::Fault {
            left: self.tokens.len(),
        }
    }

    /// The first token, and those after it.
    fn split(self) -> Option<(Token, Rest<'t>)>
        ensures words { MatchOption result (words self.entry ≡ []) (λ found. words self.entry ≡ word_of self.entry.text.now found.0 ∷ words found.1) }
        ensures readable { IfSome result (λ found. IsTrue (is_readable self.entry.text.now found.0)) }
    {
        match self.tokens {
            [] => None,
            [first, tokens @ ..] => Some((
                *first,
                Rest {
                    text: self.text,
                    tokens,
                },
            )),
        }
    }

    /// Whether no token is left.
    #[tactic(auto, unfolding(crate::specs::Reading::some_word))]
    pub(crate) fn is_empty(self) -> bool
        ensures { some_word (words self.entry) ≡ not result }
    {
        self.split().is_none()
    }

    /// Whether this reserved word is at the front.
    pub(crate) fn begins_key(self, key: Key) -> bool
        ensures { result ≡ fronts (is_key key) (words self.entry) }
    {
        match self.split() {
            Some((first, _)) => first.kind == TokenKind::Key(key),
            None => false,
        }
    }

    /// Whether a number is at the front.
    pub(crate) fn begins_number(self) -> bool
        ensures { result ≡ fronts is_number (words self.entry) }
    {
        match self.split() {
            Some((first, _)) => first.kind == TokenKind::Number,
            None => false,
        }
    }

    /// Whether a name that begins with a capital letter is at the front.
    pub(crate) fn begins_upper(self) -> bool
        ensures { result ≡ fronts is_upper (words self.entry) }
    {
        match self.split() {
            Some((first, _)) => first.kind == TokenKind::Upper,
            None => false,
        }
    }

    /// Whether a name that begins with a small letter is at the front.
    pub(crate) fn begins_lower(self) -> bool
        ensures { result ≡ fronts is_lower (words self.entry) }
    {
        match self.split() {
            Some((first, _)) => first.kind == TokenKind::Lower,
            None => false,
        }
    }

    /// Whether a property is at the front.
    fn begins_property(self) -> bool
        ensures { result ≡ fronts is_property (words self.entry) }
    {
        match self.split() {
            Some((first, _)) => matches!(first.kind, TokenKind::Property(_)),
            None => false,
        }
    }

    /// Whether a comma and a property are at the front.
    pub(crate) fn begins_comma_property(self) -> bool
        ensures { result ≡ comma_property (words self.entry) }
    {
        match self.past(Mark::Comma) {
            Some(rest) => rest.begins_property(),
            None => false,
        }
    }

    /// The tokens after this mark, where it is the first.
    pub(crate) fn past(self, mark: Mark) -> Option<Rest<'t>>
        ensures none { IfNone result (fronts (is_mark mark) (words self.entry) ≡ false) }
        ensures begins { IfSome result (λ rest. fronts (is_mark mark) (words self.entry) ≡ true) }
        ensures rest { IfSome result (λ rest. mark_at mark (words self.entry) ≡ Ok (tt, words rest)) }
    {
        let (first, rest) = self.split()?;
        if first.kind != TokenKind::Mark(mark) {
            return None;
        }
        Some(rest)
    }

    /// The tokens after this mark. A fault where the first is another.
    pub(crate) fn mark(self, mark: Mark) -> Result<Rest<'t>, PhraseEnd>
        ensures { Passes result (mark_at mark (words self.entry)) }
    {
        match self.past(mark) {
            Some(rest) => Ok(rest),
            None => Err(self.fault()),
        }
    }

    /// The place of this reserved word, and the tokens after it. A fault where the first is another.
    pub(crate) fn key(self, key: Key) -> Result<(u32, Rest<'t>), PhraseEnd>
        ensures { Gives result (key_at key (words self.entry)) }
    {
        let Some((first, rest)) = self.split() else {
            return Err(self.fault());
        };
        if first.kind != TokenKind::Key(key) {
            return Err(self.fault());
        }
        Ok((first.start, rest))
    }

    /// The property at the front, and the tokens after it. A fault where the first is another.
    pub(crate) fn property(self) -> Result<(RawProp, Rest<'t>), PhraseEnd>
        ensures { Gives result (property_at (words self.entry)) }
    {
        let Some((first, rest)) = self.split() else {
            return Err(self.fault());
        };
        let TokenKind::Property(prop) = first.kind else {
            return Err(self.fault());
        };
        Ok((
            RawProp {
                at: first.start,
                prop,
            },
            rest,
        ))
    }

    /// The number at the front, and the tokens after it. A fault where the first is another.
    pub(crate) fn number(self) -> Result<(SExpr, Rest<'t>), PhraseEnd>
        ensures { Gives result (number_at (words self.entry)) }
    {
        let Some((first, rest)) = self.split() else {
            return Err(self.fault());
        };
        if first.kind != TokenKind::Number {
            return Err(self.fault());
        }
        let literal = SExpr {
            at: first.start,
            kind: SExprKind::Number(first.number),
        };
        Ok((literal, rest))
    }

    /// The name that begins with a small letter at the front, and the tokens after it. A fault where there is none.
    pub(crate) fn lower(self, alloc: Global) -> Result<(Name, Rest<'t>), PhraseEnd>
        ensures { Gives result (lower_at (words self.entry)) }
    {
        let Some((first, rest)) = self.split() else {
            return Err(self.fault());
        };
        if first.kind != TokenKind::Lower {
            return Err(self.fault());
        }
        Ok((name_of(alloc, self.text, first)?, rest))
    }

    /// The name that begins with a capital letter at the front, and the tokens after it. A fault where there is none.
    pub(crate) fn upper(self, alloc: Global) -> Result<(Name, Rest<'t>), PhraseEnd>
        ensures { Gives result (upper_at (words self.entry)) }
    {
        let Some((first, rest)) = self.split() else {
            return Err(self.fault());
        };
        if first.kind != TokenKind::Upper {
            return Err(self.fault());
        }
        Ok((name_of(alloc, self.text, first)?, rest))
    }
}
