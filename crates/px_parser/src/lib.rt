//! The tree of a program's tokens. `parse` answers exactly the grammar's tree, or exactly the first token through
//! which no program begins, nesting included. A tree has no more parts than its text has bytes, and nests within the
//! limit (`specs/Sizes.antt`); its datatypes have constructors and its lemmas equations (`specs/Filled.antt`),
//! and the names that it declares have the form of their tokens (`specs/Named.antt`).
//! The grammar stands in `specs/Grammar.antt`, a phrase for each production: which words are written for which tree.
//! The functions go over the tokens once, and look at one token, or at two behind a comma among a parameter's
//! properties. They call themselves only for nested types and expressions, at most as deep as these may nest; lists
//! are loops. Each gives what its reader of `specs/Reading.antt` finds, and each reader is proved to read its phrase.
//! What is handed `alloc` takes memory, and answers `NoMemory` where there is none; nothing else takes any.
//! What the names mean is not looked at here.
#![tactic(auto)]

mod declarations;
mod expressions;
mod laws;
mod lists;
mod names;
mod parameters;
mod parse_end;
mod phrase_end;
mod program;
mod rest;
mod surface;
mod types;

pub use laws::{never_both, one_fault, one_tree, trees_are_fine};
pub use parse_end::ParseEnd;
pub use program::parse;
pub use surface::{
    Item, Name, SArm, SClaim, SCon, SData, SDef, SEquation, SExpr, SExprKind, SFnType, SFun,
    SLemma, SParam, SParamKind, SReplica, SType, Surface,
};

#[cfg(test)]
mod tests;
