//! What surrounds a term, and what is called.

use px_terms::{Fun, Program, Ty, Value};
use sqlite_items::Items;

/// What surrounds a term: the program, the types, functions and values of its variables, and the values of the
/// pattern variables, the innermost last.
#[derive(Clone, Copy)]
pub(crate) struct Scope<'a> {
    pub(crate) program: &'a Program,
    pub(crate) types: &'a [Ty],
    pub(crate) funs: &'a [Fun],
    pub(crate) values: &'a [Value],
    pub(crate) inner: &'a [Value],
}

/// A function that is called, with its function arguments.
#[derive(Drop)]
pub(crate) struct Callee {
    pub(crate) fun: Fun,
    pub(crate) funs: Items<Fun>,
}
