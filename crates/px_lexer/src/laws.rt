ghost use Rattle.px_lexer.specs.Laws.{Letters, NeverBoth, OneFault, OneList, OneSpelling};

/// A text has at most one list of tokens.
pub fn one_list()
    ensures { OneList }
{}

/// A text has at most one fault.
pub fn one_fault()
    ensures { OneFault }
{}

/// A text with tokens has no fault.
pub fn never_both()
    ensures { NeverBoth }
{}

/// Each reserved word, property word and mark has one text in the tables, and no text stands there twice.
pub fn one_spelling()
    ensures { OneSpelling }
{}

/// The tables have these texts, row by row.
pub fn letters()
    ensures { Letters }
{}
