use crate::clause::{Equation, EquationList};
use crate::term::Term;
use crate::types::{FnType, Fun, Ty};
use px_base::{Names, Prop};
use sqlite_items::Items;

/// A constructor: the types of its fields.
#[derive(Drop)]
pub struct ConDef {
    pub fields: Items<Ty>,
}

/// A datatype: the number of its type parameters, and its constructors in order.
#[derive(Drop)]
pub struct DataDef {
    pub tparams: u32,
    pub cons: Items<ConDef>,
}

/// A definition. `seen` is the number of obligations that stand before it in the text.
#[derive(Drop)]
pub struct Def {
    pub tparams: u32,
    pub funs: Items<FnType>,
    pub params: Items<Ty>,
    pub result: Ty,
    pub body: Term,
    pub seen: u32,
}

/// A lemma: where the premises are true, so is the conclusion.
#[derive(Drop)]
pub struct Lemma {
    pub tparams: u32,
    pub funs: Items<FnType>,
    pub vars: Items<Ty>,
    pub premises: EquationList,
    pub conclusion: Equation,
}

/// A declared obligation: a property of a definition, or a lemma, by its number.
#[derive(Clone, Copy, Debug, PartialEq, Eq)]
pub enum Declared {
    Property { def: u32, prop: Prop },
    Lemma { lemma: u32 },
}

/// A replicated type: its state, its first value, and its merge with the merge's functions. `seen` is the
/// number of obligations that stand before it in the text.
#[derive(Drop)]
pub struct ReplicaDef {
    pub state: Ty,
    pub from: Term,
    pub merge: Fun,
    pub funs: Items<Fun>,
    pub seen: u32,
}

/// A program: its declarations by number, its obligations in the order of the text, and its names.
/// Datatype 0 is `Bool` with the constructors `False` and `True`.
#[derive(Drop)]
pub struct Program {
    pub datatypes: Items<DataDef>,
    pub defs: Items<Def>,
    pub lemmas: Items<Lemma>,
    pub declared: Items<Declared>,
    pub replicas: Items<ReplicaDef>,
    pub names: Names,
}
