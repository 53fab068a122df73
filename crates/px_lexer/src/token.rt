use px_base::Prop;

/// A reserved word that is no property.
#[derive(Clone, Copy, Debug, PartialEq, Eq)]
pub enum Key {
    KData,
    KDef,
    KClaim,
    KLemma,
    KReplica,
    KFrom,
    KBy,
    KMatch,
    KFn,
    KWith,
}

/// A mark.
#[derive(Clone, Copy, Debug, PartialEq, Eq)]
pub enum Mark {
    BraceL,
    BraceR,
    ParenL,
    ParenR,
    Less,
    Greater,
    Comma,
    Colon,
    Equal,
    Arrow,
    FatArrow,
}

/// What a token is.
#[derive(Clone, Copy, Debug, PartialEq, Eq)]
pub enum TokenKind {
    /// A small letter, then letters, digits and `_`; not a reserved word.
    Lower,
    /// A capital letter, then letters, digits and `_`.
    Upper,
    /// A run of digits.
    Number,
    Key(Key),
    Property(Prop),
    Mark(Mark),
}

/// A token: its kind, the places of its first byte and of the byte after its last, and a number's value,
/// which is 0 for any other token.
#[derive(Clone, Copy, Debug, PartialEq, Eq)]
pub struct Token {
    pub kind: TokenKind,
    pub start: u32,
    pub end: u32,
    pub number: u64,
}
