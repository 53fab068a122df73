//! Programs with their places in the text, before their types are checked: `at` is the first byte of a
//! part, or of the declared name. Names are numbers already. Arms stand in the order of the text, and
//! types that are written after a variable or a type variable are kept.

use crate::head::Head;
use crate::names::Names;
use crate::prop::Prop;
use sqlite_items::{Boxed, Items};

/// A declaration, by its number among those of its kind.
#[derive(Clone, Copy, Debug, PartialEq, Eq)]
pub enum Decl {
    Datatype(u32),
    Definition(u32),
    Claim(u32),
    Lemma(u32),
    Replica(u32),
}

/// What a written type names: `Word`, a type parameter or a datatype, by its number.
#[derive(Clone, Copy, Debug, PartialEq, Eq)]
pub enum RawTyKind {
    Word,
    Var(u32),
    Con(u32),
}

/// A written type, with the arguments that are written after it.
#[derive(Drop)]
pub struct RawTy {
    pub at: u32,
    pub kind: RawTyKind,
    pub args: Items<RawTy>,
}

/// A written property.
#[derive(Clone, Copy, Debug, PartialEq, Eq)]
pub struct RawProp {
    pub at: u32,
    pub prop: Prop,
}

/// A written function, with the types that are written after it.
#[derive(Drop)]
pub struct RawFun {
    pub at: u32,
    pub head: Head,
    pub types: Items<RawTy>,
}

/// A written term.
#[derive(Drop)]
#[cycle(raw_term)]
pub struct RawTerm {
    pub at: u32,
    pub kind: RawKind,
}

/// What a written term is. `Free` is a data variable by its number, `Bound` a pattern variable counted from
/// the inside; the types written after them are kept.
#[derive(Drop)]
#[cycle(raw_term)]
pub enum RawKind {
    Free {
        number: u32,
        types: Items<RawTy>,
    },
    Bound {
        number: u32,
        types: Items<RawTy>,
    },
    Lit(u64),
    Con {
        datatype: u32,
        con: u32,
        types: Items<RawTy>,
        fields: Items<RawTerm>,
    },
    Call {
        fun: RawFun,
        funs: Items<RawFun>,
        args: Items<RawTerm>,
    },
    Match {
        on: Boxed<RawTerm>,
        arms: Items<RawArm>,
    },
}

/// An arm: its constructor, the first bytes of its pattern's variables, and its body.
#[derive(Drop)]
#[cycle(raw_term)]
pub struct RawArm {
    pub at: u32,
    pub datatype: u32,
    pub con: u32,
    pub vars: Items<u32>,
    pub body: RawTerm,
}

/// A constructor, with the types of its fields.
#[derive(Drop)]
pub struct RawCon {
    pub at: u32,
    pub fields: Items<RawTy>,
}

/// A datatype. `Bool` is datatype 0, with 0 for each `at`.
#[derive(Drop)]
pub struct RawData {
    pub at: u32,
    pub tparams: u32,
    pub cons: Items<RawCon>,
}

/// The type of a function parameter, with the properties that are assumed of it.
#[derive(Drop)]
pub struct RawFnType {
    pub params: Items<RawTy>,
    pub result: RawTy,
    pub props: Items<RawProp>,
}

/// A definition. `props` are those of its own `with`.
#[derive(Drop)]
pub struct RawDef {
    pub at: u32,
    pub tparams: u32,
    pub funs: Items<RawFnType>,
    pub params: Items<RawTy>,
    pub result: RawTy,
    pub body: RawTerm,
    pub props: Items<RawProp>,
}

/// Further properties of a definition.
#[derive(Drop)]
pub struct RawClaim {
    pub at: u32,
    pub def: u32,
    pub props: Items<RawProp>,
}

/// Two written sides.
#[derive(Drop)]
pub struct RawEquation {
    pub left: RawTerm,
    pub right: RawTerm,
}

/// A lemma: where the premises are true, so is the conclusion.
#[derive(Drop)]
pub struct RawLemma {
    pub at: u32,
    pub tparams: u32,
    pub funs: Items<RawFnType>,
    pub vars: Items<RawTy>,
    pub premises: Items<RawEquation>,
    pub conclusion: RawEquation,
}

/// A replicated type: its state, its first value, and its merge with the merge's functions.
#[derive(Drop)]
pub struct RawReplica {
    pub at: u32,
    pub state: RawTy,
    pub from: RawTerm,
    pub merge: RawFun,
    pub funs: Items<RawFun>,
}

/// A program whose names are numbers: its declarations by kind, and `order`, which lists them as they stand
/// in the text. `Bool` is datatype 0 in `datatypes` and in `names`, and isn't in `order`.
#[derive(Drop)]
pub struct RawProgram {
    pub order: Items<Decl>,
    pub datatypes: Items<RawData>,
    pub defs: Items<RawDef>,
    pub claims: Items<RawClaim>,
    pub lemmas: Items<RawLemma>,
    pub replicas: Items<RawReplica>,
    pub names: Names,
}
