ghost use Rattle.px_totality.specs.PropertyLaws.{ArgumentsFit, AtMostFits, BuiltInsHave, BuiltInsLack, DeclaredIsHad, ImpliedIsTrue};

/// In every program that is typed and descends, what properties that a function has imply, it has: the closure
/// adds nothing that is not true.
pub fn implied_is_true()
    ensures { ImpliedIsTrue }
{}

/// In every such program `wle` and `weq` have the properties that are said of them.
pub fn built_ins_have()
    ensures { BuiltInsHave }
{}

/// In no such program is `wle` commutative, since its values are not, or idempotent, since that does not fit its type.
pub fn built_ins_lack()
    ensures { BuiltInsLack }
{}

/// In every such program `wle` fits where a reflexive and transitive function of two words is wanted.
pub fn at_most_fits()
    ensures { AtMostFits }
{}

/// In every such program a definition without function parameters has, at all ground types, each property whose
/// clause holds in the program.
pub fn declared_is_had()
    ensures { DeclaredIsHad }
{}

/// In every such program, where each obligation before a place holds, functions that are typed as arguments there
/// stand for functions that fit, with all the properties that are assumed of them.
pub fn arguments_fit()
    ensures { ArgumentsFit }
{}
