//! Values as cells in preorder.
ghost use Rattle.std.specs.Prelude.{◌≡◌, ℕ, ◌<◌, ◌^◌, ◌↔◌, IsTrue, IfOk, MatchOption, length};
ghost use Rattle.px_terms.specs.declared.term.Value.TheVariants as value;
ghost use Rattle.px_machine.specs.Cells.{preorder, tree, trees, IsValue, AreValues};

use crate::cells::{Cell, first_end, same_cells};
use px_base::NoMemory;
use sqlite_items::Items;
use std::alloc::Global;
use std::marker::Model;

/// A value, kept as its cells in preorder; contracts see it as the tree that it is. It may be as deep as it has cells: what is
/// done with it are loops over the cells, and dropping it frees one list.
#[derive(Drop)]
pub struct FlatValue {
    cells: Items<Cell>,
}

impl Model for FlatValue {
    ghost use Rattle.std.specs.Coded.{codes};
    ghost use Rattle.px_terms.specs.declared.term.Value.{Value as Tree};
    ghost use Rattle.px_terms.specs.contracts.term.Value as the_tree;
    ghost use Rattle.px_machine.specs.Cells.{tree, IsValue};

    ghost Value = { Tree };

    ghost coded = { Prim.hlevel (codes, the_tree.the_row.coded) };

    ghost view = { λ a. tree a.cells };

    ghost invariant = { λ a. IsValue a.cells };
}

/// What a value of a datatype is built of: the number of its datatype, of its constructor, and its fields in order.
#[derive(Drop)]
pub struct Construction {
    pub datatype: u32,
    pub con: u32,
    pub fields: Items<FlatValue>,
}

impl FlatValue {
    /// The value of these cells. It takes no memory.
    pub fn from_cells(cells: Items<Cell>) -> FlatValue
        requires { IsValue cells }
        ensures { result ≡ tree cells }
    {
        FlatValue { cells }
    }

    /// The word as a value.
    pub fn literal(alloc: Global, word: u64) -> Result<FlatValue, NoMemory>
        ensures { IfOk result (λ made. made ≡ value.Lit word) }
    {
        let mut cells = Items::new(alloc);
        cells.push(Cell::Lit(word))?;
        Ok(FlatValue { cells })
    }

    /// The constructor on these fields in order.
    pub fn make(
        alloc: Global,
        datatype: u32,
        con: u32,
        fields: &[FlatValue],
    ) -> Result<FlatValue, NoMemory>
        requires { length fields.now < 2 ^ 32 }
        ensures { IfOk result (λ made. made ≡ value.Con datatype con fields.now) }
    {
        let mut cells = Vec::new(alloc);
        cells.push(Cell::Con {
            datatype,
            con,
            fields: fields.len() as u32,
        })?;
        for field in fields {
            cells.extend_from_slice(field.cells())?;
        }
        Ok(FlatValue {
            cells: Items::from_vec(cells),
        })
    }

    /// The cells of this value in preorder.
    pub fn cells(&self) -> &[Cell]
        ensures { result.now ≡ preorder self.now }
    {
        self.cells.as_slice()
    }

    /// The number of this value's nodes.
    pub fn size(&self) -> usize
        ensures { result ≡ length (preorder self.now) }
    {
        self.cells.len()
    }

    /// A copy of this value.
    pub fn copy(&self, alloc: Global) -> Result<FlatValue, NoMemory>
        ensures { IfOk result (λ copy. copy ≡ self.now) }
    {
        Ok(FlatValue {
            cells: Items::from_slice(alloc, self.cells.as_slice())?,
        })
    }

    /// Whether the values are equal. It takes no memory.
    pub fn same(&self, other: &FlatValue) -> bool
        ensures { IsTrue result ↔ (self.now ≡ other.now) }
    {
        same_cells(self.cells(), other.cells())
    }

    /// What this value is built of; None where it is a word.
    pub fn branch(&self, alloc: Global) -> Result<Option<Construction>, NoMemory>
        ensures { IfOk result (λ found. MatchOption found ((w : ℕ) × (self.now ≡ value.Lit w)) (λ b. self.now ≡ value.Con b.datatype b.con b.fields)) }
    {
        let [top, rest @ ..] = self.cells() else {
            return Ok(None);
        };
        match *top {
            Cell::Lit(_) => Ok(None),
            Cell::Con { datatype, con, .. } => Ok(Some(Construction {
                datatype,
                con,
                fields: values_of(alloc, rest)?,
            })),
        }
    }
}

/// The values that the cells show, one after the other.
fn values_of(alloc: Global, cells: &[Cell]) -> Result<Items<FlatValue>, NoMemory>
    requires { AreValues cells.now }
    ensures { IfOk result (λ values. values ≡ trees cells.now) }
{
    let mut values = Items::new(alloc);
    let mut rest = cells;
    while !rest.is_empty() {
        let (first, behind) = rest.split_at(first_end(rest));
        values.push(FlatValue {
            cells: Items::from_slice(alloc, first)?,
        })?;
        rest = behind;
    }
    Ok(values)
}
