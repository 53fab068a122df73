//! Names become numbers. `resolve` answers the numbered program of a surface tree, or exactly the first name by
//! place that breaks a rule of scope, with the first rule that it breaks.
//! What a name stands for at its place stands in `specs/Standing.antt`, each place's rule in `specs/Rules.antt`; which
//! names a tree has, in the order of the text, in `specs/Uses.antt`, and which numbered program it is in
//! `specs/Numbers.antt`. Laws say that these names rise by bytes, and that up to the fault none is forgotten
//! (`specs/Laws.antt`). The functions go over the tree once. They call themselves only for nested types and
//! expressions, at most as deep as these may nest; lists are loops, and a name is looked up in a table. What answers a
//! `Result` and is handed `alloc` or a list to add to takes memory, and answers `NoMemory` where there is none; nothing
//! else takes any. What a term's type is, is not looked at here.
#![tactic(auto)]

mod data;
mod declarations;
mod ends;
mod expressions;
mod functions;
mod globals;
mod later;
mod laws;
mod locals;
mod lookups;
#[cfg(test)]
mod name_texts;
mod names;
mod parameters;
mod programs;
mod properties;
#[cfg(test)]
mod tests;
mod types;

pub use ends::{ScopeEnd, ScopeKind};
pub use laws::{
    each_name_is_listed, fault_is_first, names_are_lawful, names_rise, never_both, numberings_fit,
    one_fault, one_numbering,
};
pub use programs::resolve;
