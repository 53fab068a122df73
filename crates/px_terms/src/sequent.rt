use crate::clause::EquationList;
use crate::term::Term;
use crate::types::{FnType, Ty};
use sqlite_items::Items;

/// The variables of a sequent: the number of type parameters, the types of the function variables, and for
/// each data variable its type, or nothing where it is no longer live.
#[derive(Drop)]
pub struct Context {
    pub tparams: u32,
    pub funs: Items<FnType>,
    pub vars: Items<Option<Ty>>,
}

/// A variable of the frame with its present term.
#[derive(Drop)]
pub struct Present {
    pub variable: u32,
    pub term: Term,
}

/// The variables that the induction speaks of, each with its present term, in rising order.
#[derive(Drop)]
pub struct Frame {
    pub entries: Items<Present>,
}

/// A sequent: where the facts are true, some alternative is. `next` is the next fresh variable's number.
#[derive(Drop)]
pub struct Sequent {
    pub context: Context,
    pub frame: Frame,
    pub facts: EquationList,
    pub alternatives: EquationList,
    pub next: u32,
}
