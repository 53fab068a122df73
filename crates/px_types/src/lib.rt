//! Typing: a written program, with its places in the text, becomes the typed program of the same declarations, or has a
//! first fault. The relation of typing stands in `px_terms`; here stands which typed declaration a written one is
//! (`specs/Written.antt`), and which fault is its first (`specs/Faults.antt`).
//!
//! `check_types` answers exactly that program, or exactly that fault. `Checking` does so one declaration at a time: of each
//! first what it says of types and properties, and then its terms. Each function answers what is found of its part
//! (`specs/Outcome.antt`, `specs/NextOutcome.antt`), and laws say that this is what the rules say (`specs/Laws.antt`,
//! `specs/ProgramLaws.antt`). Whether definitions descend is left to `px_descent`.
#![tactic(auto)]

mod alike;
mod arguments;
mod arms;
mod bounds;
mod callees;
mod checking;
mod datatypes;
mod declare;
mod definitions;
mod ends;
mod env;
mod formed;
mod heads;
mod knowledge;
mod laws;
mod lemmas;
mod lists;
mod met;
mod notes;
mod program_laws;
mod programs;
mod replicas;
mod said;
mod scope;
mod signatures;
mod start;
mod terms;
#[cfg(test)]
mod tests;
mod typed;
mod typed_laws;
mod types;
mod typings;

pub use checking::Checking;
pub use ends::{TypeEnd, TypeKind};
pub use laws::{
    always_one, arguments_are_found, arguments_break_as_found, never_both, one_fault, one_typing,
    parts_are_found, parts_break_as_found, terms_are_found, terms_break_as_found, types_are_found,
    types_break_as_found,
};
pub use program_laws::{
    always_judged, never_typed_and_broken, one_first_fault, one_program, programs_are_found,
    programs_break_as_found,
};
pub use programs::check_types;
pub use typed::Typed;
pub use typed_laws::{programs_are_typed, programs_have_numbers};
pub use types::{type_ty, type_tys};
pub use typings::{NotTyped, type_of, typed_have_constructors, typings_are_exact};
