//! Frames: the variables that an induction speaks of, each with its present term, and the guard of the hypothesis. What a
//! frame is, and when the guard holds, stands in px_terms (`specs/Sequents.antt`, `specs/Guards.antt`); here a frame is made,
//! changed where a variable is replaced, copied, looked up (`frames`), and asked whether it allows an instance of the
//! hypothesis (`guard`).
//!
//! `allows` is true exactly where the guard holds: each variable of the frame gets a constructor-subterm of its present term,
//! and at least one a proper one. Where memory runs out, `substitute` leaves the frame as it was. What the hypothesis says is
//! left to `px_equations`.
#![tactic(auto)]

mod frames;
mod guard;

pub use frames::{copy_frame, new_frame, present, substitute};
pub use guard::allows;
