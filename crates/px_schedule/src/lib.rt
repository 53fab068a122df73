//! The texts of values and of schedules: `read_value` gives the value that a text is (`specs/ValueGrammar.antt`), `read_schedule` the events of its
//! lines, or the first line that breaks a rule (`specs/Schedules.antt`). What is wanted next of a value is kept on a stack, so nothing recurses
//! along a value. How a value is printed is left to `px_machine`; that what is printed is read again is a law here.
#![tactic(auto)]

mod commands;
mod constructors;
mod cuts;
mod decimals;
mod events;
mod line_end;
mod lower_names;
mod numbers;
mod openings;
mod reading;
mod rest;
mod runs;
mod schedule;
mod schedule_end;
mod schedule_laws;
mod schedules;
mod value_end;
mod value_laws;
mod values;
mod wanted;

pub use schedule::{Event, Schedule};
pub use schedule_end::{ScheduleEnd, ScheduleKind};
pub use schedule_laws::{never_both, one_fault, one_schedule};
pub use schedules::read_schedule;
pub use value_end::ValueEnd;
pub use value_laws::{one_value, printed_is_text};
pub use values::read_value;
