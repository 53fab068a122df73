//! The properties of functions: what each says of a function, as a clause, and what several imply. The table of the
//! properties stands here once, as one macro, and once as a definition (px_terms, `specs/Clauses.antt`); the contracts
//! join the two. Nothing here says which properties are declared, or where.
#![tactic(auto)]

mod clauses;
mod functions;
mod sets;
mod table;
mod terms;
#[cfg(test)]
mod tests;

pub use clauses::{ClauseEnd, clause_of, fits};
pub use sets::{at_most_properties, equal_properties, has, implied, set_of_written, with};
