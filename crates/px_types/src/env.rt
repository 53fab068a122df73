//! What is in scope at a part of a declaration.
ghost use Rattle.px_types.specs.Scopes.{place_of, Knows};

use px_terms::{FnType, Program, PropSet, Ty};
use sqlite_items::Items;
use std::alloc::Global;

/// Where a declaration stands: the body of this definition, or behind so many obligations.
#[derive(Clone, Copy, Debug, PartialEq, Eq)]
pub(crate) enum Stand {
    Body(u32),
    Behind(u32),
}

/// What is in scope at a part of a declaration: the program so far, the declaration's place, its type and function
/// parameters, its data variables, and of each definition the properties that are declared before the place.
#[derive(Drop)]
pub(crate) struct Env<'a> {
    pub alloc: Global,
    pub program: &'a Program,
    pub place: Stand,
    pub tparams: u32,
    pub funs: &'a Items<FnType>,
    pub vars: &'a Items<Ty>,
    pub known: &'a Items<PropSet>,
    ghost knows: { Knows program.now (place_of place) known.now },
}

/// A function type with types put in for its type variables.
#[derive(Clone, Copy)]
pub(crate) struct Wanted<'a> {
    pub fun: &'a FnType,
    pub types: &'a Items<Ty>,
}

/// Types with other types put in for their type variables.
#[derive(Clone, Copy)]
pub(crate) struct Instances<'a> {
    pub tys: &'a Items<Ty>,
    pub types: &'a Items<Ty>,
}
