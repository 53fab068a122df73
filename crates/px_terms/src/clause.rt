ghost use Rattle.std.specs.Prelude.{◌≡◌, ◌<◌, [], ◌∷◌, ◌++◌, length, slice_get, slice_set, OnOk, OnErr, IfSome};

use crate::row::Side;
use crate::term::Term;
use crate::types::{FnType, Fun, Ty};
use sqlite_items::Items;
use std::alloc::{AllocError, Global};
use std::marker::Model;

/// Two sides that are to have one value.
#[derive(Drop)]
pub struct Equation {
    pub left: Term,
    pub right: Term,
}

/// A list of equations.
#[derive(Drop)]
pub struct EquationList {
    items: Vec<Equation>,
}

impl Model for EquationList {
    ghost use Rattle.std.specs.Prelude.{List};
    ghost use Rattle.std.specs.Coded.{coded_list};
    ghost use Rattle.px_terms.specs.declared.clause.Equation.{Equation};
    ghost use Rattle.px_terms.specs.contracts.clause.Equation as equation;

    ghost Value = { List Equation };

    ghost coded = { coded_list equation.the_row.coded };

    ghost view = { λ l. l.items.items };
}

impl EquationList {
    ghost use Rattle.px_terms.specs.TreeEdits.{with_side};

    /// No equations.
    pub fn new(alloc: Global) -> EquationList
        ensures { result ≡ [] }
    {
        EquationList {
            items: Vec::new(alloc),
        }
    }

    /// Adds an equation at the end. Without memory the list is unchanged.
    pub fn push(&mut self, equation: Equation) -> Result<(), AllocError>
        ensures ok { OnOk result (self.new ≡ self.old ++ equation ∷ []) }
        ensures err { OnErr result (self.new ≡ self.old) }
    {
        self.items.push(equation)?;
        Ok(())
    }

    /// The equations.
    pub fn as_slice(&self) -> &[Equation]
        ensures { result.now ≡ self.now }
    {
        self.items.as_slice()
    }

    /// Puts the term on this side of the equation at `at`, in place of what stood there. It takes no memory.
    pub fn set_side(&mut self, at: usize, side: Side, term: Term)
        requires { at < length self.old }
        ensures { IfSome (slice_get self.old at) (λ e. self.new ≡ slice_set self.old at (with_side side e term)) }
    {
        let equation = &mut self.items[at];
        match side {
            Side::Left => equation.left = term,
            Side::Right => equation.right = term,
        }
    }
}

/// What a property or a lemma says: for all types, functions and values of its variables, where each
/// premise is true, some alternative is.
#[derive(Drop)]
pub struct Clause {
    pub tparams: u32,
    pub funs: Items<FnType>,
    pub vars: Items<Ty>,
    pub premises: EquationList,
    pub alternatives: EquationList,
}

/// What stands for the type, function and data variables of a term, by their numbers.
#[derive(Drop)]
pub struct Sigma {
    pub types: Items<Ty>,
    pub funs: Items<Fun>,
    pub terms: Items<Term>,
}
