//! The replay of a derivation, line by line. `Replay` is fed a text's lines one after the other: it keeps the number of the
//! next obligation and the stack of sequents that are open, and each line is a header or a row that takes the top of the
//! stack and puts what it leaves there (`specs/States.antt`). A line that does not go on is refused with its number and the
//! first thing that is wrong (`specs/Refusals.antt`), and from then on nothing else is answered. `finish` accepts exactly the
//! lines of the trees of a derivation, and then every obligation holds in the language's meaning, in every extension of the
//! program. A step and an injection move the sequent; a note moves it into the child of its last alternative and a split into
//! its last child, and both copy it for the others; the cases of a variable are each written anew. What is built is asked for
//! its size first. How lines are read, what steps, cases and instances are, and why rows are sound, is left to the crates below.
#![tactic(auto)]

mod copies;
mod ends;
mod headers;
mod instances;
mod laws;
mod limits;
mod lines;
mod notes;
mod open_sequents;
mod replays;
mod rows;
mod steps;

pub use ends::{Accepted, FeedEnd, Why};
pub use laws::{ends_are_derivations, one_state, partials_are_trees, partials_begin};
pub use replays::Replay;
