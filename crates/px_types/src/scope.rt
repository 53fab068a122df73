//! What is in scope at each part of a term.
ghost use Rattle.std.specs.Prelude.{◌≡◌};
ghost use Rattle.px_types.specs.Envs.{comparing};

use crate::heads::BuiltIn;
use px_terms::{Context, Program};
use std::alloc::Global;

/// What is in scope at each part of a term: the program and the variables; and what a comparison of two words is.
#[derive(Drop)]
pub(crate) struct Scope<'a> {
    pub(crate) alloc: Global,
    pub(crate) program: &'a Program,
    pub(crate) context: &'a Context,
    pub(crate) comparison: &'a BuiltIn,
    ghost compares: { comparison.now ≡ comparing },
}
