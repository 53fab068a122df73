//! The top call. `drive` reads the words of a command line, reads the texts that the line names, does the
//! command's work, and prints its answer or the one line of its refusal; `status` is the number that the
//! program ends with. Its contract is the table of causes: in `specs/Ends.antt` a command is a chain of
//! stages in the order of its refusals, in `specs/Sources.antt` stands which program a text is and why it is none, in
//! `specs/Derivations.antt` when a text is a derivation of a program and at which line it is none,
//! and in `specs/Answers.antt` an outcome is an end of that table.
//! What a program and a derivation are is left to the crates below, and real files to the program above.
//! What is handed `alloc` takes memory, and answers `NoMemory` where there is none; nothing else takes any.
#![tactic(auto)]

mod arguments;
mod chain;
#[cfg(test)]
mod check_tests;
mod command;
mod eval;
#[cfg(test)]
mod eval_tests;
pub mod laws;
mod line;
mod messages;
mod outcome;
mod refusals;
#[cfg(test)]
mod row_tests;
mod run;
pub mod run_laws;
#[cfg(test)]
mod run_tests;
#[cfg(test)]
mod run_texts;
mod stages;
#[cfg(test)]
mod tests;

pub use command::drive;
pub use messages::status;
pub use outcome::{ArgumentKind, CommandLine, End, Outcome, SourceFault, Which};
pub use px_replay::Why;
pub use px_schedule::ScheduleKind;
