//! Constructors by name.
ghost use Rattle.std.specs.Prelude.{◌≡◌, ◌<◌, ◌^◌, ℕ, List, MatchOption};
ghost use Rattle.px_base.specs.Lawful.{IsLawful};
ghost use Rattle.px_terms.specs.Numbered.{HasNumbers};
ghost use Rattle.std.specs.Str.{bytes_eq};
ghost use Rattle.px_schedule.specs.Names.{place_of, IsNamed};

use px_terms::{Program, Text, Ty};
use sqlite_items::at;

/// A constructor of a datatype: its number, and the written types of its fields.
#[derive(Clone, Copy)]
pub(crate) struct Found<'p> {
    pub(crate) con: u32,
    pub(crate) fields: &'p [Ty],
}

/// Whether two words are one.
pub(crate) fn is_word(word: &[u8], other: &[u8]) -> bool
    ensures { result ≡ bytes_eq word.now other.now }
{
    word == other
}

/// The place of a word among names.
pub(crate) fn place(names: &[Text], word: &[u8]) -> Option<usize>
    ensures { result ≡ place_of names.now word.now }
{
    names
        .iter()
        .position(|name| is_word(name.as_str().as_bytes(), word))
}

/// The constructor of the datatype that has this name.
pub(crate) fn find_constructor<'p>(
    program: &'p Program,
    datatype: u32,
    word: &[u8],
) -> Option<Found<'p>>
    requires lawful { IsLawful program.now.names }
    requires numbered { HasNumbers program.now }
    ensures { MatchOption result ((k : ℕ) (fields : List Ty) → ¬ IsNamed program.now datatype word.now k fields) (λ found. IsNamed program.now datatype word.now found.con found.fields.now) }
{
    let Some(names) = at(program.names.cons.as_slice(), datatype as usize) else {
        return None;
    };
    let Some(con) = place(names.as_slice(), word) else {
        return None;
    };
    let Some(data) = at(program.datatypes.as_slice(), datatype as usize) else {
        return None;
    };
    let Some(constructor) = at(data.cons.as_slice(), con) else {
        return None;
    };
    Some(Found {
        con: con as u32,
        fields: constructor.fields.as_slice(),
    })
}
