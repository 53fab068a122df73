//! The compiler: a checked program as code of the machine, a list of instructions for each definition. The code's runs give
//! the values and the numbers of calls that the program's calls have by their meaning. A term's instructions are made from the
//! last to the first, so the places that an instruction names are known when it is made, and each instruction is written once.
#![tactic(auto)]

mod emit;
mod number;
mod places;
mod program;
mod targets;

pub use program::compile;
