ghost use Rattle.std.specs.Prelude.{Contains, IfNone, IfSome, IsTrue};
ghost use Rattle.px_lexer.specs.Forms.{marks};
ghost use Rattle.px_lexer.specs.Scan.{IsLongestRow, IsWordKind, NoRowBegins, longest_first, rows_of};
ghost use Rattle.px_lexer.specs.declared.token.TokenKind.{TokenKind};

use crate::token::{Key, Mark, TokenKind};
use px_base::Prop;

/// The reserved words, each with its kind.
pub(crate) const WORDS: [(&[u8], TokenKind); 21] = [
    (b"data", TokenKind::Key(Key::KData)),
    (b"def", TokenKind::Key(Key::KDef)),
    (b"claim", TokenKind::Key(Key::KClaim)),
    (b"lemma", TokenKind::Key(Key::KLemma)),
    (b"replica", TokenKind::Key(Key::KReplica)),
    (b"from", TokenKind::Key(Key::KFrom)),
    (b"by", TokenKind::Key(Key::KBy)),
    (b"match", TokenKind::Key(Key::KMatch)),
    (b"fn", TokenKind::Key(Key::KFn)),
    (b"with", TokenKind::Key(Key::KWith)),
    (b"comm", TokenKind::Property(Prop::Comm)),
    (b"assoc", TokenKind::Property(Prop::Assoc)),
    (b"idem", TokenKind::Property(Prop::Idem)),
    (b"sel", TokenKind::Property(Prop::Sel)),
    (b"refl", TokenKind::Property(Prop::Refl)),
    (b"irrefl", TokenKind::Property(Prop::Irrefl)),
    (b"sym", TokenKind::Property(Prop::Sym)),
    (b"antisym", TokenKind::Property(Prop::Antisym)),
    (b"asym", TokenKind::Property(Prop::Asym)),
    (b"trans", TokenKind::Property(Prop::Trans)),
    (b"conn", TokenKind::Property(Prop::Conn)),
];

/// The marks, each with its kind. Where one begins another, the longer one comes first.
pub(crate) const MARKS: [(&[u8], TokenKind); 11] = [
    (b"->", TokenKind::Mark(Mark::Arrow)),
    (b"=>", TokenKind::Mark(Mark::FatArrow)),
    (b"{", TokenKind::Mark(Mark::BraceL)),
    (b"}", TokenKind::Mark(Mark::BraceR)),
    (b"(", TokenKind::Mark(Mark::ParenL)),
    (b")", TokenKind::Mark(Mark::ParenR)),
    (b"<", TokenKind::Mark(Mark::Less)),
    (b">", TokenKind::Mark(Mark::Greater)),
    (b",", TokenKind::Mark(Mark::Comma)),
    (b":", TokenKind::Mark(Mark::Colon)),
    (b"=", TokenKind::Mark(Mark::Equal)),
];

/// The kind of the row that has this text.
fn row_kind(table: &[(&[u8], TokenKind)], word: &[u8]) -> Option<TokenKind>
    ensures none { IfNone result ((kind : TokenKind) → ¬ Contains (rows_of table.entry.now) (word.now, kind)) }
    ensures some { IfSome result (λ kind. Contains (rows_of table.entry.now) (word.now, kind)) }
{
    for row in table {
        if row.0 == word {
            return Some(row.1);
        }
    }
    None
}

/// The kind of a word that begins with a small letter.
pub(crate) fn word_kind(word: &[u8]) -> TokenKind
    ensures { IsWordKind word.now result }
{
    row_kind(&WORDS, word).unwrap_or(TokenKind::Lower)
}

/// The length and the kind of the longest row that the text begins with.
fn longest_row(table: &[(&[u8], TokenKind)], text: &[u8]) -> Option<(usize, TokenKind)>
    requires { IsTrue (longest_first (rows_of table.now)) }
    ensures none { IfNone result (NoRowBegins (rows_of table.entry.now) text.now) }
    ensures some { IfSome result (λ found. IsLongestRow (rows_of table.entry.now) text.now found.0 found.1) }
{
    for row in table {
        if text.starts_with(row.0) {
            return Some((row.0.len(), row.1));
        }
    }
    None
}

/// The length and the kind of the longest mark that the text begins with.
pub(crate) fn mark_of(text: &[u8]) -> Option<(usize, TokenKind)>
    ensures none { IfNone result (NoRowBegins marks text.now) }
    ensures some { IfSome result (λ found. IsLongestRow marks text.now found.0 found.1) }
{
    longest_row(&MARKS, text)
}
