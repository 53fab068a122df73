//! How values come into the heap and out of it.
ghost use Rattle.std.specs.Prelude.{◌≡◌, ◌<◌, length, OnOk, IfOk};
ghost use Rattle.px_machine.specs.Heap.{IsHeap, heap_trees, tree_at};
ghost use Rattle.px_machine.specs.Transfer.{CanPut, IsPut, IsAdded, IsTaken};

use crate::cells::{Cell, fields_of};
use crate::flat_value::FlatValue;
use crate::heap::{Heap, Node};
use crate::numbers::{push_reversed, reverse_from, take_last};
use px_base::NoMemory;
use sqlite_items::Items;
use std::alloc::Global;

impl Heap {
    /// Adds a value, and answers the number of its node. It takes memory for the value's nodes.
    pub(crate) fn put_in(&mut self, alloc: Global, value: &FlatValue) -> Result<usize, NoMemory>
        requires { IsHeap self.old }
        ensures { IfOk result (λ number. IsAdded self.old self.new value.now number) }
    {
        let cells = value.cells();
        let mut numbers = Vec::new(alloc);
        for at in (0..cells.len()).rev() {
            self.put_cell(cells[at], &mut numbers)?;
        }
        Ok(take_last(&mut numbers))
    }

    /// Adds a node on the last values among these, of which the first comes last; its number takes their place.
    fn put_cell(&mut self, cell: Cell, numbers: &mut Vec<usize>) -> Result<(), NoMemory>
        requires { CanPut cell self.old numbers.old.items }
        ensures { OnOk result (IsPut cell self.old numbers.old.items self.new numbers.new.items) }
    {
        let start = numbers.len() - fields_of(cell);
        reverse_from(numbers, start);
        let number = match cell {
            Cell::Lit(word) => self.literal(word)?,
            Cell::Con { datatype, con, .. } => self.make(datatype, con, &numbers[start..])?,
        };
        numbers.truncate(start);
        numbers.push(number)?;
        Ok(())
    }

    /// The value of a node, as cells of its own. Their memory is taken at once.
    pub(crate) fn take_out(&self, alloc: Global, number: usize) -> Result<FlatValue, NoMemory>
        requires heap { IsHeap self.now }
        requires within { number < length self.now.nodes.items }
        ensures { IfOk result (λ value. value ≡ tree_at (heap_trees self.now) number) }
    {
        let mut cells = Vec::with_capacity(alloc, self.sizes[number])?;
        let mut left = Vec::new(alloc);
        left.push(number)?;
        while let Some(next) = left.pop() {
            cells.push(self.take_cell(next, &mut left)?)?;
        }
        Ok(FlatValue::from_cells(Items::from_vec(cells)))
    }

    /// The cell of a node, whose fields are added to the nodes that are left, the first of them last.
    fn take_cell(&self, number: usize, left: &mut Vec<usize>) -> Result<Cell, NoMemory>
        requires heap { IsHeap self.now }
        requires within { number < length self.now.nodes.items }
        ensures { IfOk result (λ cell. IsTaken self.now number cell left.old.items left.new.items) }
    {
        match self.node(number) {
            Node::Lit(word) => Ok(Cell::Lit(word)),
            Node::Con {
                datatype,
                con,
                first,
                count,
            } => {
                push_reversed(left, self.fields_at(first, count))?;
                Ok(Cell::Con {
                    datatype,
                    con,
                    fields: count,
                })
            }
        }
    }
}
