//! Laws of typing: what the functions of this crate find is exactly what the rules say.
ghost use Rattle.px_types.specs.Laws.{TypesAreFound, TypesBreakAsFound, ArgumentsAreFound, ArgumentsBreakAsFound, TermsAreFound, TermsBreakAsFound, PartsAreFound, PartsBreakAsFound, OneTyping, OneFault, NeverBoth, AlwaysOne};

/// Written types are found exactly as the rules say.
pub fn types_are_found()
    ensures { TypesAreFound }
{}

/// Written types have exactly the first broken rule that is found.
pub fn types_break_as_found()
    ensures { TypesBreakAsFound }
{}

/// Function arguments are found exactly as the rules say.
pub fn arguments_are_found()
    ensures { ArgumentsAreFound }
{}

/// Function arguments have exactly the first broken rule that is found.
pub fn arguments_break_as_found()
    ensures { ArgumentsBreakAsFound }
{}

/// A written term is found exactly as the rules say.
pub fn terms_are_found()
    ensures { TermsAreFound }
{}

/// A written term has exactly the first broken rule that is found.
pub fn terms_break_as_found()
    ensures { TermsBreakAsFound }
{}

/// Written terms that should have certain types are found exactly as the rules say.
pub fn parts_are_found()
    ensures { PartsAreFound }
{}

/// Written terms that should have certain types have exactly the first broken rule that is found.
pub fn parts_break_as_found()
    ensures { PartsBreakAsFound }
{}

/// A written term is at most one term, of at most one type.
pub fn one_typing()
    ensures { OneTyping }
{}

/// A written term has at most one first fault.
pub fn one_fault()
    ensures { OneFault }
{}

/// No written term is typed and has a fault.
pub fn never_both()
    ensures { NeverBoth }
{}

/// Each written term is typed or has a fault.
pub fn always_one()
    ensures { AlwaysOne }
{}
