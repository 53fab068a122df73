//! Descent: that each recursion ends. A definition descends where its self-calls pass something smaller at positions
//! that none of them raises: `check_descent` is Ok exactly where every definition does, and else names the first that
//! does not, with its first self-call that is stuck. The largest set of positions decides. It is found by a walk of the
//! body, and a second walk finds the self-call; neither takes memory, and for a definition of a text two are enough.
//! `Checked` keeps a program that descends, with all that the check of types promises of it, and that in every extension each
//! call has one value, by the laws of totality. Contracts see it as the program. That types are right is left to the check
//! of types.
#![tactic(auto)]

mod around;
mod calls;
mod checked;
mod descent;
mod end;
mod kept;
mod laws;
mod standing;
mod stuck;
#[cfg(test)]
mod tests;

pub use checked::Checked;
pub use descent::check_descent;
pub use end::NoDescent;
pub use laws::{largest_decides, one_first_stuck, stuck_excludes_descent};
