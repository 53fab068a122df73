//! Values of a running program, and the machine that runs its code. A value is kept as its cells in preorder, and contracts see it
//! as the tree that it is; so whatever is done with one is a loop, and a value may be as deep as it has nodes. `is_value` tests
//! cells from outside, `FlatValue::print` writes a value's text. Code is lists of instructions (`Code`); what running it gives is
//! defined in `specs/Machine.antt`, and `run` gives exactly that within a budget of calls. While a call runs, its values are nodes of
//! one heap that are named by number: no instruction costs more than the fields that it touches, and the heap grows until the call ends.
#![tactic(auto)]

mod cells;
mod code;
mod flat_value;
#[cfg(test)]
mod flat_value_tests;
mod heap;
mod laws;
mod machine;
mod numbers;
mod printing;
mod run_end;
mod runs;
#[cfg(test)]
mod runs_tests;
mod transfer;

pub use cells::{Cell, is_value};
pub use code::{CallTarget, Code, Instr};
pub use flat_value::{Construction, FlatValue};
pub use laws::{runs_by_hand, runs_have_one_end};
pub use run_end::RunEnd;
pub use runs::{Call, Done, run};
