//! The search for derivations. What it must find is the plain class: how terms are normalised within units and limits, what
//! is settled, where a sequent is blocked, which uses of clauses close a pair, and how often is split. The definitions stand
//! in `specs/`, and none of them speaks of the search. Which derivations there are, is left to `px_terms`.
#![tactic(auto)]

mod branch;
mod choices;
mod deeds;
mod ended;
mod ends;
mod frames;
mod heads;
mod instances;
mod laws;
mod leaf_pairs;
mod leaf_rooms;
mod limits;
mod norm;
mod parts;
mod spots;
mod stages;
mod step_rows;
mod stops;
mod written;

pub use ends::ProveEnd;
pub use laws::{
    more_splits_find_more, norms_are_moves, one_blocker, one_list_of_leaf_pairs, one_normal_form,
    one_settling,
};
pub use limits::{LEAF_PAIRS, UNITS};
