ghost use Rattle.px_parser.specs.Laws.{NeverBoth, OneFault, OneTree, TreesAreFine};

/// Tokens have at most one tree.
pub fn one_tree()
    ensures { OneTree }
{}

/// Tokens have at most one fault.
pub fn one_fault()
    ensures { OneFault }
{}

/// Tokens with a tree have no fault.
pub fn never_both()
    ensures { NeverBoth }
{}

/// The tree of a text's tokens has no more parts than the text has bytes, nests within the limit, has a constructor in each
/// datatype and an equation in each lemma, and names of the form of their tokens.
pub fn trees_are_fine()
    ensures { TreesAreFine }
{}
