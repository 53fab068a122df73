//! The tokens of a program's text. `tokens` answers them exactly, or the first place where none begins.
//! The rules stand in `specs/`: a relation between a text and its tokens, apart from the scanner.
//! What is handed `alloc` takes memory, and answers `NoMemory` where there is none; nothing else takes any.
#![tactic(auto)]

mod laws;
mod runs;
mod scan;
mod table;
mod token;

pub use laws::{letters, never_both, one_fault, one_list, one_spelling};
pub use scan::{LexEnd, tokens};
pub use token::{Key, Mark, Token, TokenKind};

#[cfg(test)]
mod tests;
