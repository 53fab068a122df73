use crate::clause::Sigma;
use crate::path::Path;
use crate::term::Term;
use px_base::{Head, Prop};
use sqlite_items::Items;

/// A side of an equation.
#[derive(Clone, Copy, Debug, PartialEq, Eq)]
pub enum Side {
    Left,
    Right,
}

/// The side of an alternative or of a fact, by its number.
#[derive(Clone, Copy, Debug, PartialEq, Eq)]
pub enum Target {
    Alternative { number: u32, side: Side },
    Fact { number: u32, side: Side },
}

/// What a step does at its place: it puts in a definition's body, takes a match's arm, compares two
/// literals, or rewrites by a fact.
#[derive(Clone, Copy, Debug, PartialEq, Eq)]
pub enum Kind {
    Unfold,
    Select,
    Compare,
    Fact { number: u32, left_to_right: bool },
}

/// What a note rests on: a property of a function, a lemma, or the obligation's own clause.
#[derive(Clone, Copy, Debug, PartialEq, Eq)]
pub enum Ref {
    Property { head: Head, prop: Prop },
    Lemma { lemma: u32 },
    Hypothesis,
}

/// A row of a derivation: the header of an obligation's tree, or a row of the tree.
#[derive(Drop)]
pub enum Row {
    /// The tree of this obligation follows, by induction on the variables `on`.
    Header {
        obligation: u32,
        on: Items<u32>,
    },
    /// The sides of this alternative are one term.
    Same {
        alternative: u32,
    },
    /// A step at a place of one side.
    Step {
        target: Target,
        path: Path,
        kind: Kind,
    },
    /// An instance of what the reference says. Where it is the hypothesis, the types and the functions are left to
    /// whoever applies the row, and stand here as empty lists.
    Note {
        reference: Ref,
        sigma: Sigma,
    },
    /// The cases of a variable.
    CaseVar {
        variable: u32,
    },
    /// The cases of a term.
    SplitTerm {
        term: Term,
    },
    /// The sides of this fact have different heads.
    Clash {
        fact: u32,
    },
    /// The fields of this fact's sides are equal.
    Inject {
        fact: u32,
    },
}

/// An obligation's tree: the variables that the induction speaks of, and the rows in preorder.
#[derive(Drop)]
pub struct Tree {
    pub on: Items<u32>,
    pub rows: Items<Row>,
}
