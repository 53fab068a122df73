use px_terms::{Term, Ty};
use sqlite_items::Items;

/// A term with its type.
#[derive(Drop)]
pub struct Typed {
    pub term: Term,
    pub ty: Ty,
}

/// The arms so far of a match: the first one's type, and for each constructor its body, where there is one.
#[derive(Drop)]
pub struct Slots {
    pub ty: Option<Ty>,
    pub bodies: Items<Option<Term>>,
}
