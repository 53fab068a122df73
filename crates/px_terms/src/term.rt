use crate::types::{Fun, Ty};
use sqlite_items::{Boxed, Items};

/// A term. `Free` is a data variable by its number, `Bound` a pattern variable counted from the inside:
/// `Bound(0)` is the last field of the innermost arm. A match has an arm for each constructor, in the
/// order of the datatype.
#[derive(Drop)]
pub enum Term {
    Free(u32),
    Bound(u32),
    Lit(u64),
    Con {
        datatype: u32,
        con: u32,
        types: Items<Ty>,
        fields: Items<Term>,
    },
    Call {
        fun: Fun,
        funs: Items<Fun>,
        args: Items<Term>,
    },
    Match {
        on: Boxed<Term>,
        datatype: u32,
        types: Items<Ty>,
        arms: Items<Term>,
    },
}

/// A value: a word, or a constructor on values.
#[derive(Drop)]
pub enum Value {
    Lit(u64),
    Con {
        datatype: u32,
        con: u32,
        fields: Items<Value>,
    },
}
