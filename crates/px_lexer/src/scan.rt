ghost use Rattle.std.specs.Prelude.{◌≡◌, ◌<◌, ◌≤◌, ◌⊎◌, ℕ, List, [], length, slice_index, Ok, Err, IfOk, IfErr, IfSome, IfNone, IsTrue, All};
ghost use Rattle.std.specs.Char.{is_ascii_alphanumeric, is_ascii_digit, is_ascii_lowercase, is_ascii_uppercase};
ghost use Rattle.px_lexer.specs.Bytes.{is_blank};
ghost use Rattle.px_lexer.specs.Forms.{IsTokenOf};
ghost use Rattle.px_lexer.specs.Scan.{IsGap, NoFormAt, NoGapAt};
ghost use Rattle.px_lexer.specs.Tokens.{AreTokens, IsFault, IsEnd, IsOversized, IsUnlessNoMemory, Reads, SpansRise};
ghost use Rattle.px_lexer.specs.declared.token.Token.{Token};

use crate::runs::{Class, number_of, run_end};
use crate::table::{mark_of, word_kind};
use crate::token::{Token, TokenKind};
use px_base::limits::PROGRAM_BYTES;
use sqlite_items::Items;
use std::alloc::{AllocError, Global};

/// Why there are no tokens.
#[derive(Clone, Copy, Debug, PartialEq, Eq)]
pub enum LexEnd {
    /// At this place no token, blank or comment begins, or a number begins that is above 2^64 - 1.
    Fault { at: u32 },
    /// No memory was left.
    NoMemory,
}

impl From<AllocError> for LexEnd {
    ghost use Rattle.px_lexer.specs.declared.scan.LexEnd.TheVariants.{NoMemory};

    ghost from_gives = { λ _ end. end ≡ NoMemory };

    fn from(_error: AllocError) -> LexEnd {
        LexEnd::NoMemory
    }
}

/// Whether the byte is a blank.
fn is_blank(byte: u8) -> bool
    ensures { result ≡ is_blank byte }
{
    byte == b' ' || byte == b'\t' || byte == b'\n' || byte == b'\r'
}

/// The place after the blank or comment that begins at a place, if one does.
fn gap_end(text: &[u8], at: usize) -> Option<usize>
    requires { at ≤ length text.now }
    ensures none { IfNone result (NoGapAt text.now at) }
    ensures some { IfSome result (IsGap text.now at) }
{
    let first = *text.get(at)?;
    if is_blank(first) {
        Some(at + 1)
    } else if first == b'#' {
        Some(run_end(Class::Line, text, at))
    } else {
        None
    }
}

/// The place after all blanks and comments that come next.
fn past_gaps(text: &[u8], at: usize) -> usize
    requires { at ≤ length text.now }
    ensures within { result ≤ length text.now }
    ensures gaps { Reads text.now result at [] }
    ensures stops { NoGapAt text.now result }
{
    let mut end = at;
    while let Some(next) = gap_end(text, end) {
        end = next;
    }
    end
}

/// The name or reserved word that begins at a place.
fn word_at(text: &[u8], at: usize) -> Token
    requires within { (at < length text.now) × (length text.now ≤ PROGRAM_BYTES) }
    requires first { IsTrue (is_ascii_lowercase (slice_index text.now at)) }
    ensures { (result.start ≡ at) × IsTokenOf text.now result }
{
    let end = run_end(Class::NamePart, text, at);
    let kind = word_kind(&text[at..end]);
    Token {
        kind,
        start: at as u32,
        end: end as u32,
        number: 0,
    }
}

/// The name with a capital that begins at a place.
fn upper_at(text: &[u8], at: usize) -> Token
    requires within { (at < length text.now) × (length text.now ≤ PROGRAM_BYTES) }
    requires first { IsTrue (is_ascii_uppercase (slice_index text.now at)) }
    ensures { (result.start ≡ at) × IsTokenOf text.now result }
{
    let end = run_end(Class::NamePart, text, at);
    Token {
        kind: TokenKind::Upper,
        start: at as u32,
        end: end as u32,
        number: 0,
    }
}

/// The number that begins at a place, if it is at most 2^64 - 1.
fn number_at(text: &[u8], at: usize) -> Option<Token>
    requires within { (at < length text.now) × (length text.now ≤ PROGRAM_BYTES) }
    requires first { IsTrue (is_ascii_digit (slice_index text.now at)) }
    ensures none { IfNone result (IsOversized text.now at) }
    ensures some { IfSome result (λ token. (token.start ≡ at) × IsTokenOf text.now token) }
{
    let end = run_end(Class::Digit, text, at);
    let number = number_of(&text[at..end])?;
    Some(Token {
        kind: TokenKind::Number,
        start: at as u32,
        end: end as u32,
        number,
    })
}

/// The mark that begins at a place, if one does.
fn mark_at(text: &[u8], at: usize) -> Option<Token>
    requires within { (at < length text.now) × (length text.now ≤ PROGRAM_BYTES) }
    requires first { ¬ IsTrue (is_ascii_alphanumeric (slice_index text.now at)) }
    ensures none { IfNone result (NoFormAt text.now at) }
    ensures some { IfSome result (λ token. (token.start ≡ at) × IsTokenOf text.now token) }
{
    let (len, kind) = mark_of(&text[at..])?;
    Some(Token {
        kind,
        start: at as u32,
        end: (at + len) as u32,
        number: 0,
    })
}

/// The token that begins at a place, if one does.
fn token_at(text: &[u8], at: usize) -> Option<Token>
    requires { (at < length text.now) × (length text.now ≤ PROGRAM_BYTES) }
    ensures none { IfNone result (NoFormAt text.now at ⊎ IsOversized text.now at) }
    ensures some { IfSome result (λ token. (token.start ≡ at) × IsTokenOf text.now token) }
{
    let first = text[at];
    if first.is_ascii_lowercase() {
        Some(word_at(text, at))
    } else if first.is_ascii_uppercase() {
        Some(upper_at(text, at))
    } else if first.is_ascii_digit() {
        number_at(text, at)
    } else {
        mark_at(text, at)
    }
}

/// The tokens of a text, in one pass.
fn scan(alloc: Global, text: &[u8]) -> Result<Items<Token>, LexEnd>
    requires { length text.now ≤ PROGRAM_BYTES }
    ensures ok { IfOk result (AreTokens text.now) }
    ensures fault { IfErr result (IsEnd text.now) }
{
    let mut found = Items::new(alloc);
    let mut at = past_gaps(text, 0);
    while at < text.len() {
        let Some(token) = token_at(text, at) else {
            return Err(LexEnd::Fault { at: at as u32 });
        };
        found.push(token)?;
        at = past_gaps(text, token.end as usize);
    }
    Ok(found)
}

/// The tokens of a text, in order.
pub fn tokens(alloc: Global, text: &[u8]) -> Result<Items<Token>, LexEnd>
    requires { length text.now ≤ PROGRAM_BYTES }
    ensures ok { IfOk result (AreTokens text.now) }
    ensures fault { IfErr result (IsEnd text.now) }

    // Unless memory runs out, the one list of the text is answered, and so is its one fault.
    ensures each_list { (ts : List Token) → AreTokens text.now ts → IsUnlessNoMemory (Ok ts) result }
    ensures each_fault { (at : ℕ) → IsFault text.now at → IsUnlessNoMemory (Err (LexEnd.Fault at)) result }

    // Each token is its slice, and the spans rise within the text.
    ensures slices { IfOk result (All (IsTokenOf text.now)) }
    ensures spans { IfOk result (λ ts. SpansRise 0 ts (length text.now)) }
{
    scan(alloc, text)
}
