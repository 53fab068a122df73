//! The text of a derivation, line by line. `next_line` cuts a text into lines, `read_line` reads a line's row, and
//! `print_tree` writes a tree's lines. A row has one spelling: numbers in decimal without leading zeros, one space between
//! fields, lists joined by commas, nothing empty but in brackets and in a call's parentheses. So a line is at most one
//! row's, and reading takes exactly what printing writes. What a row may hold to have a line stands in `specs/Spellable`,
//! the lines in `specs/Spelling`. A tree is kept as its rows in preorder, so nothing recurses along a derivation; only the
//! depth of types and terms does, which is at most `ROW_DEPTH`. Whether rows apply, and to what, is not asked here.
#![tactic(auto)]

mod fields;
mod laws;
mod line_end;
mod lines;
mod lookups;
mod numbers;
mod printing;
mod reading;
mod rest;
mod runs;
mod terms;
#[cfg(test)]
mod tests;
mod trees;
mod types;

pub use laws::{no_line_feed, one_list, one_row};
pub use line_end::LineEnd;
pub use lines::{Piece, next_line};
pub use px_terms::{Row, Tree};
pub use reading::read_line;
pub use trees::print_tree;
