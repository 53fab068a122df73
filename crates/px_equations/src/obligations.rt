//! The obligations of a checked program, each with its clause.

ghost use Rattle.std.specs.Prelude.{◌≡◌, ◌↔◌, ◌≤◌, ◌<◌, length, slice_get, IsTrue, Some, IfOk, MatchOption};
ghost use Rattle.px_terms.specs.Obligations.{IsObligation};
ghost use Rattle.px_terms.specs.declared.clause.Clause.{Clause as Said};
ghost use Rattle.px_descent.specs.Checked.{IsChecked};
ghost use Rattle.px_equations.specs.Index.{IsBelow};

use crate::clauses::clauses_of;
use crate::index::{Index, first_lemma, first_property, index_of};
use px_descent::Checked;
use px_terms::{Clause, Declared, NoMemory, Prop};
use sqlite_items::{Items, at};
use std::alloc::Global;
use std::marker::Model;

/// The obligations of a checked program in order, each with its clause. Contracts see them as the program.
#[derive(Drop)]
pub struct Obligations<'a> {
    checked: &'a Checked,
    clauses: Items<Clause>,
    index: Index,
}

impl<'a> Model for Obligations<'a> {
    ghost use Rattle.px_terms.specs.declared.program.Program.{Program as AnyProgram};
    ghost use Rattle.px_terms.specs.contracts.program.Program as contracts;
    ghost use Rattle.px_equations.specs.Listed.{IsListing};

    ghost Value = { AnyProgram };

    ghost coded = { contracts.the_row.coded };

    ghost view = { λ o. o.checked.now };

    ghost invariant = { λ o. IsListing o.checked.now o.clauses o.index };
}

/// The obligations of the program, each with its clause. It takes memory.
pub fn list_obligations<'a>(
    alloc: Global,
    checked: &'a Checked,
) -> Result<Obligations<'a>, NoMemory>
    ensures { IfOk result (λ all. all ≡ checked.now) }
{
    let program = checked.program();
    let clauses = clauses_of(alloc, program)?;
    let index = index_of(alloc, program.declared.as_slice())?;
    Ok(Obligations {
        checked,
        clauses,
        index,
    })
}

impl<'a> Obligations<'a> {
    /// How many there are. It takes no memory.
    pub fn count(&self) -> u32
        ensures { result ≡ length self.now.declared }
    {
        self.clauses.len() as u32
    }

    /// The clause of the obligation of this number, or `None` where there is none. It takes no memory.
    pub fn clause(&self, number: u32) -> Option<&Clause>
        ensures has { MatchOption result (length self.now.declared ≤ number) (λ clause. IsObligation self.now number clause.now) }
        // It has no other clause.
        ensures only { MatchOption result (Unit {0}) (λ clause. (own : Said) → IsObligation self.now number own → own ≡ clause.now) }
    {
        at(self.clauses.as_slice(), number as usize)
    }

    /// The checked program. It takes no memory.
    pub fn checked(&self) -> &'a Checked
        ensures same { result.now ≡ self.now }
        ensures checked { IsChecked self.now }
    {
        self.checked
    }

    /// Whether the property is declared of the definition below the obligation of this number. It takes no memory.
    pub(crate) fn declares(&self, number: u32, def: u32, prop: Prop) -> bool
        ensures { IsTrue result ↔ IsBelow self.now.declared number (Declared.Property def prop) }
    {
        first_property(&self.index, def, prop) < number
    }

    /// The number of an obligation below this one that is the lemma, or `None` where there is none. It takes no memory.
    pub(crate) fn lemma_below(&self, number: u32, lemma: u32) -> Option<u32>
        ensures { MatchOption result (¬ IsBelow self.now.declared number (Declared.Lemma lemma)) (λ first. (first < number) × (slice_get self.now.declared first ≡ Some (Declared.Lemma lemma))) }
    {
        let first = first_lemma(&self.index, lemma);
        if first < number { Some(first) } else { None }
    }
}
