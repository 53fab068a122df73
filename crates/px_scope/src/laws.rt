ghost use Rattle.px_scope.specs.Laws.{OneNumbering, OneFault, NeverBoth, NamesRise, FaultIsFirst, EachNameIsListed, NumberingsFit, NamesAreLawful};

/// A surface has at most one numbered program.
pub fn one_numbering()
    ensures { OneNumbering }
{}

/// A surface has at most one fault of scope.
pub fn one_fault()
    ensures { OneFault }
{}

/// No surface has both.
pub fn never_both()
    ensures { NeverBoth }
{}

/// The names of a text's program stand one after the other: the order in which they are looked at is that of the bytes.
pub fn names_rise()
    ensures { NamesRise }
{}

/// A fault of scope is at the first byte of the text at which a name breaks a rule.
pub fn fault_is_first()
    ensures { FaultIsFirst }
{}

/// Up to the first fault of scope, each name and each property's word of the text is looked at; with `names_rise`, once.
pub fn each_name_is_listed()
    ensures { EachNameIsListed }
{}

/// The numbered program of a surface that is within the limits, with a constructor in each datatype and an equation in each
/// lemma, is as the check of types asks for it.
pub fn numberings_fit()
    ensures { NumberingsFit }
{}

/// The names of the numbered program of a surface whose names have the form of their kind are lawful: they have the form of
/// theirs, and no two of a kind are equal.
pub fn names_are_lawful()
    ensures { NamesAreLawful }
{}
