//! A plain, slow evaluator of terms: it finds what the term means, by the definition of meaning that stands in
//! px_terms, with the number of calls. It follows that definition rule by rule, and copies values wherever they
//! are used. It finds the value and the number exactly where the terms nest within its fuel and the number is
//! one that a u64 counts. What is handed `alloc` takes memory, and answers `NoMemory` where there is none, and
//! for nothing else.
#![tactic(auto)]

mod evaluation;
mod functions;
mod scope;
#[cfg(test)]
mod tests;
mod values;

pub use evaluation::evaluate;
pub use values::Evaluated;
