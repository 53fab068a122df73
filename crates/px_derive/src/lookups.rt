//! The numbers of names, each in its own namespace. A look-up goes over the names in order.
ghost use Rattle.std.specs.Prelude.{◌≡◌};
ghost use Rattle.std.specs.Str.{bytes_eq};
ghost use Rattle.px_derive.specs.Reading.{place_of, number_named, small, small_constructor, constructor_named, head_named};

use crate::numbers::small;
use px_base::{Head, Names, Text};
use sqlite_items::Items;

/// A constructor: its datatype's number, and its own among that datatype's.
#[derive(Clone, Copy, Debug, PartialEq, Eq)]
pub(crate) struct Constructor {
    pub(crate) datatype: u32,
    pub(crate) con: u32,
}

/// Whether two words are one.
pub(crate) fn is_word(word: &[u8], other: &[u8]) -> bool
    ensures { result ≡ bytes_eq word.now other.now }
{
    word == other
}

/// The place of a word among names.
fn place(names: &[Text], word: &[u8]) -> Option<usize>
    ensures { result ≡ place_of names.now word.now }
{
    names
        .iter()
        .position(|name| is_word(name.as_str().as_bytes(), word))
}

/// The place as a number, where it is at most 2^32 - 1.
fn number_of_place(place: usize) -> Option<u32>
    ensures { result ≡ small place }
{
    match u32::try_from(place) {
        Ok(number) => Some(number),
        Err(_) => None,
    }
}

/// The number of a name.
#[tactic(auto, unfolding(crate::specs::Reading::number_named))]
pub(crate) fn find_name(names: &[Text], word: &[u8]) -> Option<u32>
    ensures { result ≡ number_named names.now word.now }
{
    number_of_place(place(names, word)?)
}

/// The constructor of these places, where both are numbers.
fn constructor_at(datatype: usize, con: usize) -> Option<Constructor>
    ensures { result ≡ small_constructor (record { datatype = datatype; con = con }) }
{
    let datatype = number_of_place(datatype)?;
    let con = number_of_place(con)?;
    Some(Constructor { datatype, con })
}

/// The constructor of a name: the first, by datatypes.
pub(crate) fn find_constructor(lists: &[Items<Text>], word: &[u8]) -> Option<Constructor>
    ensures { result ≡ constructor_named lists.now word.now }
{
    for datatype in 0..lists.len() {
        if let Some(con) = place(lists[datatype].as_slice(), word) {
            return constructor_at(datatype, con);
        }
    }
    None
}

/// The built-in or the definition of a name.
#[tactic(auto, unfolding(crate::specs::Reading::head_named))]
pub(crate) fn find_head(names: &Names, word: &[u8]) -> Option<Head>
    ensures { result ≡ head_named names.now word.now }
{
    if is_word(word, b"wle") {
        return Some(Head::Wle);
    }
    if is_word(word, b"weq") {
        return Some(Head::Weq);
    }
    Some(Head::Def(find_name(names.defs.as_slice(), word)?))
}
