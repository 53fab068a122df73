//! What may be noted. `list_obligations` makes the clause of each declared property and lemma once, and an index by which what
//! is declared of a definition, and where a lemma stands, is looked up without a walk; contracts see the list as the program.
//! `available` finds the clause that a reference is open to: a property that follows from what is declared below the obligation,
//! is built in or is assumed; a lemma below it; or the hypothesis. `None` exactly where nothing is open.
//! `instance_of` puts types, functions and terms into a clause, where they fit it: the premises that are to be shown and the
//! alternatives. IllTyped exactly where they do not fit; nothing is made then. `fits_clause` is that test alone.
//! Sizes of instances, what a sequent becomes by a note, and in which order the children come, is left to whoever applies rows;
//! the type of a term to `px_types`, what properties say and imply to `px_props`.
#![tactic(auto)]

mod alike;
mod clauses;
mod ends;
mod formed;
mod functions;
mod index;
mod instances;
mod known;
mod obligations;
mod open;

pub use ends::InstanceEnd;
pub use instances::{ClauseInstance, Filling, fits_clause, instance_of};
pub use obligations::{Obligations, list_obligations};
pub use open::{OpenClause, available};
