//! Texts in, bytes out: the two traits by which the product reads texts and writes bytes, the forms
//! of them in memory and over the host, and the two calls that read a whole text and write all bytes.
//! A device that fails raises its count of faults, so that each answer of a fault has its cause.
//! A call that may answer `NoMemory` takes memory, and answers so only where there is none; of the others,
//! the writes of a memory sink alone take any.
#![tactic(auto)]

mod bytes;
mod faults;
mod files;
mod host_files;
mod host_out;
mod memory_files;
mod memory_sink;
mod reading;
mod sink;
#[cfg(test)]
mod tests;
mod texts;
mod writing;

pub use bytes::Bytes;
pub use faults::{Failed, ReadEnd, WriteFault};
pub use files::Files;
pub use host_files::HostFiles;
pub use host_out::HostOut;
pub use memory_files::MemoryFiles;
pub use memory_sink::MemorySink;
pub use reading::read_all;
pub use sink::Sink;
pub use writing::write_all;
