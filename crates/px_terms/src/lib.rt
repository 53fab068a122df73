//! Types, terms, programs, sequents and rows of derivations, as plain data, with the operations on
//! terms: paths, copies and instances. It gives on all of `px_base`. Contracts see
//! each of them as the tree that it is, so a copy equals its source. The definitions of the language stand
//! in `specs/`: meaning, typing, clauses, steps, derivations and their text. Nothing here reads bytes.
#![tactic(auto)]

mod clause;
mod copying;
mod depths;
mod instance_sizes;
mod instances;
mod path;
mod places;
mod program;
mod putting;
mod rooms;
mod row;
mod sameness;
mod sequent;
mod sizes;
mod subterms;
mod term;
#[cfg(test)]
mod tests;
mod types;

pub use clause::{Clause, Equation, EquationList, Sigma};
pub use copying::{
    copy, copy_equation, copy_equations, copy_fn_type, copy_fn_types, copy_fun, copy_funs,
    copy_terms, copy_ty, copy_tys,
};
pub use depths::{depth, depth_of_terms, depth_of_ty, depth_of_tys};
pub use instance_sizes::size_of_instance;
pub use instances::{
    instance, instance_of_fun, instance_of_funs, instance_of_terms, instance_of_ty, instance_of_tys,
};
pub use path::Path;
pub use places::{at_path, child, replace_at};
pub use program::{ConDef, DataDef, Declared, Def, Lemma, Program, ReplicaDef};
pub use putting::{put, put_equations};
pub use px_base::{
    Decl, Head, Names, NoMemory, Prop, PropSet, RawArm, RawClaim, RawCon, RawData, RawDef,
    RawEquation, RawFnType, RawFun, RawKind, RawLemma, RawProgram, RawProp, RawReplica, RawTerm,
    RawTy, RawTyKind, Text, limits,
};
pub use rooms::{instance_is_within, ty_is_within};
pub use row::{Kind, Ref, Row, Side, Target, Tree};
pub use sameness::{same_fun, same_funs, same_term, same_terms, same_ty, same_tys};
pub use sequent::{Context, Frame, Present, Sequent};
pub use sizes::{size, size_of_terms, size_of_ty, size_of_tys};
pub use subterms::is_con_subterm;
pub use term::{Term, Value};
pub use types::{FnType, Fun, Ty};
