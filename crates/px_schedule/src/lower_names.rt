//! Names that begin with a small letter.
ghost use Rattle.std.specs.Prelude.{◌≡◌, ◌↔◌, IsTrue, Contains};
ghost use Rattle.std.specs.Char.{is_ascii_lowercase};
ghost use Rattle.px_base.specs.NameForms.{IsName, IsLowerName, reserved_words};
ghost use Rattle.px_schedule.specs.Fields.{stands_in};

use crate::constructors::is_word;
use crate::runs::{Class, run};

/// The reserved words.
const RESERVED: [&[u8]; 21] = [
    b"data", b"def", b"claim", b"lemma", b"replica", b"from", b"by", b"match", b"fn", b"with",
    b"comm", b"assoc", b"idem", b"sel", b"refl", b"irrefl", b"sym", b"antisym", b"asym", b"trans",
    b"conn",
];

/// Whether the word is one of these.
#[tactic(auto, unfolding(crate::specs::Fields::stands_in))]
fn is_one_of(words: &[&[u8]], word: &[u8]) -> bool
    ensures { result ≡ stands_in words.now word.now }
{
    words.iter().any(|other| is_word(other, word))
}

/// Whether the word is reserved.
fn is_reserved(word: &[u8]) -> bool
    ensures { IsTrue result ↔ Contains reserved_words word.now }
{
    is_one_of(&RESERVED, word)
}

/// Whether the word is a small letter and then letters, digits and `_`.
fn has_form(word: &[u8]) -> bool
    ensures { IsTrue result ↔ IsName is_ascii_lowercase word.now }
{
    match word {
        [first, ..] => first.is_ascii_lowercase() && run(Class::NamePart, word) == word.len(),
        [] => false,
    }
}

/// Whether the word is a small letter and then letters, digits and `_`, and no reserved word.
pub(crate) fn is_lower_name(word: &[u8]) -> bool
    ensures { IsTrue result ↔ IsLowerName word.now }
{
    has_form(word) && !is_reserved(word)
}
