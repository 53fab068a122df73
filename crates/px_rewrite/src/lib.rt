//! Small steps: what a part of a term becomes. `step` unfolds a call, selects an arm, compares two literals, or rewrites by
//! a fact, at a place of a term, exactly as the table of steps has it (px_terms, `specs/Steps.antt`). It is NoStep exactly
//! where there is no such step, or where its result is over the limits of a sequent. A body, an arm or a fact's side that
//! would make the term too large is refused before it is built: its nodes are counted first, those of an arm with its fields
//! put in by a walk that builds nothing (`arm_sizes.rt`); depth is asked after. Fields are put in by one walk of the arm,
//! which counts the pattern variables of inner arms (`opening.rt`). What is stepped is the whole term; which side of a
//! sequent it is, and what becomes of the sequent, is left to whoever asks.
#![tactic(auto)]

mod arm_sizes;
mod arms;
mod opening;
mod replacing;
mod steps;
mod turns;

pub use arm_sizes::size_of_arm;
pub use arms::open_arm;
pub use steps::{StepEnd, step};
