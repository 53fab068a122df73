use px_base::{Head, PropSet};
use sqlite_items::Items;

/// A type: `Word`, a type parameter by its number, or a datatype with its arguments. Datatype 0 is `Bool`.
#[derive(Drop)]
pub enum Ty {
    Word,
    Var(u32),
    Con { datatype: u32, args: Items<Ty> },
}

/// The type of a function parameter, with the properties that are assumed of it.
#[derive(Drop)]
pub struct FnType {
    pub params: Items<Ty>,
    pub result: Ty,
    pub props: PropSet,
}

/// A function with its type arguments.
#[derive(Drop)]
pub struct Fun {
    pub head: Head,
    pub types: Items<Ty>,
}
