//! The tree of a program's text. `at` is a part's first byte; a part without it begins with its first field.
//! A list that is left out in the text is the empty list: only `args` of `Lower` tells empty parentheses from none.

use px_base::{RawProp, Text};
use sqlite_items::{Boxed, Items};

/// A name that stands in the text.
#[derive(Drop)]
pub struct Name {
    pub at: u32,
    pub text: Text,
}

/// The declarations of a program, in the order of the text.
#[derive(Drop)]
pub struct Surface {
    pub items: Items<Item>,
}

/// A declaration.
#[derive(Drop)]
pub enum Item {
    Datatype(SData),
    Definition(SDef),
    Claim(SClaim),
    Lemma(SLemma),
    Replica(SReplica),
}

/// `data NAME<..> { .. }`
#[derive(Drop)]
pub struct SData {
    pub at: u32,
    pub name: Name,
    pub tparams: Items<Name>,
    pub cons: Items<SCon>,
}

/// A constructor, with the types of its fields.
#[derive(Drop)]
pub struct SCon {
    pub name: Name,
    pub fields: Items<SType>,
}

/// A type, with its arguments.
#[derive(Drop)]
pub struct SType {
    pub name: Name,
    pub args: Items<SType>,
}

/// `def NAME<..>(..): TYPE with .. { .. }`
#[derive(Drop)]
pub struct SDef {
    pub at: u32,
    pub name: Name,
    pub tparams: Items<Name>,
    pub params: Items<SParam>,
    pub result: SType,
    pub props: Items<RawProp>,
    pub body: SExpr,
}

/// A parameter.
#[derive(Drop)]
pub struct SParam {
    pub name: Name,
    pub kind: SParamKind,
}

/// What a parameter is: a value of a type, or a function.
#[derive(Drop)]
pub enum SParamKind {
    Value(SType),
    Function(SFnType),
}

/// `fn(..) -> TYPE with ..`
#[derive(Drop)]
pub struct SFnType {
    pub at: u32,
    pub params: Items<SType>,
    pub result: SType,
    pub props: Items<RawProp>,
}

/// `claim NAME: ..`
#[derive(Drop)]
pub struct SClaim {
    pub at: u32,
    pub name: Name,
    pub props: Items<RawProp>,
}

/// `lemma NAME<..>(..): ..`, whose last equation is the conclusion.
#[derive(Drop)]
pub struct SLemma {
    pub at: u32,
    pub name: Name,
    pub tparams: Items<Name>,
    pub params: Items<SParam>,
    pub equations: Items<SEquation>,
}

/// Two sides.
#[derive(Drop)]
pub struct SEquation {
    pub left: SExpr,
    pub right: SExpr,
}

/// `replica NAME: TYPE from EXPR by FUN(..)`
#[derive(Drop)]
pub struct SReplica {
    pub at: u32,
    pub name: Name,
    pub state: SType,
    pub from: SExpr,
    pub merge: SFun,
    pub funs: Items<SFun>,
}

/// A function, with its type arguments.
#[derive(Drop)]
pub struct SFun {
    pub name: Name,
    pub args: Items<SType>,
}

/// An expression.
#[derive(Drop)]
#[cycle(expression)]
pub struct SExpr {
    pub at: u32,
    pub kind: SExprKind,
}

/// What an expression is.
#[derive(Drop)]
#[cycle(expression)]
pub enum SExprKind {
    Number(u64),
    Upper {
        name: Name,
        types: Items<SType>,
        fields: Items<SExpr>,
    },
    Lower {
        name: Name,
        types: Items<SType>,
        args: Option<Items<SExpr>>,
    },
    Match {
        on: Boxed<SExpr>,
        arms: Items<SArm>,
    },
}

/// An arm: a constructor, its pattern's variables, and a body.
#[derive(Drop)]
#[cycle(expression)]
pub struct SArm {
    pub name: Name,
    pub vars: Items<Name>,
    pub body: SExpr,
}
