//! The machine's values: nodes named by number, so that to copy a value is to copy its number.
ghost use Rattle.std.specs.Prelude.{◌≡◌, ◌<◌, ◌≤◌, ◌+◌, ◌^◌, [], length, slice_get, IfOk, IfSome, IsSome, MatchOption};
ghost use Rattle.std.specs.List.{AllByRecursion};
ghost use Rattle.px_terms.specs.declared.term.Value.TheVariants as value;
ghost use Rattle.px_machine.specs.Heap.{IsHeap, Grows, heap_trees, node_tree, numbers_of, trees_at};

use px_base::NoMemory;
use std::alloc::Global;

/// A node of the heap: a word, or a constructor on nodes whose numbers stand in the heap's list of fields.
#[derive(Clone, Copy)]
pub(crate) enum Node {
    Lit(u64),
    Con {
        datatype: u32,
        con: u32,
        first: usize,
        count: u32,
    },
}

/// Values as nodes that are named by number. It only grows: a node stands for one value for ever, since a node's fields are
/// nodes before it. Beside each node stands how many nodes its value has, or the greatest number where they are more.
#[derive(Drop)]
pub(crate) struct Heap {
    pub(crate) nodes: Vec<Node>,
    pub(crate) fields: Vec<usize>,
    pub(crate) sizes: Vec<usize>,
}

impl Heap {
    /// A heap without values.
    pub(crate) fn new(alloc: Global) -> Heap
        ensures heap { IsHeap result }
        ensures empty { result.nodes.items ≡ [] }
    {
        Heap {
            nodes: Vec::new(alloc),
            fields: Vec::new(alloc),
            sizes: Vec::new(alloc),
        }
    }

    /// Adds a word, and answers its number.
    pub(crate) fn literal(&mut self, word: u64) -> Result<usize, NoMemory>
        requires { IsHeap self.old }
        ensures { IfOk result (λ number. Grows self.old self.new (value.Lit word) number) }
    {
        let number = self.nodes.len();
        self.nodes.push(Node::Lit(word))?;
        self.sizes.push(1)?;
        Ok(number)
    }

    /// Adds a constructor on the values of these numbers, and answers its number.
    pub(crate) fn make(
        &mut self,
        datatype: u32,
        con: u32,
        numbers: &[usize],
    ) -> Result<usize, NoMemory>
        requires heap { IsHeap self.old }
        requires within { AllByRecursion (λ n. n < length self.old.nodes.items) numbers.now }
        requires few { length numbers.now < 2 ^ 32 }
        ensures { IfOk result (λ number. Grows self.old self.new (value.Con datatype con (trees_at (heap_trees self.old) numbers.now)) number) }
    {
        let number = self.nodes.len();
        let size = self.size_over(numbers);
        let first = self.fields.len();
        self.fields.extend_from_slice(numbers)?;
        self.nodes.push(Node::Con {
            datatype,
            con,
            first,
            count: numbers.len() as u32,
        })?;
        self.sizes.push(size)?;
        Ok(number)
    }

    /// How many nodes a constructor on these values has, or the greatest number.
    fn size_over(&self, numbers: &[usize]) -> usize
        requires heap { IsHeap self.now }
        requires within { AllByRecursion (λ n. n < length self.now.nodes.items) numbers.now }
    {
        let mut size: usize = 1;
        for number in numbers {
            size = size.saturating_add(self.sizes[*number]);
        }
        size
    }

    /// The node of this number.
    pub(crate) fn node(&self, number: usize) -> Node
        requires { number < length self.now.nodes.items }
        ensures { slice_get self.now.nodes.items number ≡ Some result }
    {
        self.nodes[number]
    }

    /// The numbers of a node's fields, from where they stand in the list of fields.
    pub(crate) fn fields_at(&self, first: usize, count: u32) -> &[usize]
        requires { first + count ≤ length self.now.fields.items }
        ensures { result.now ≡ numbers_of self.now.fields.items first count }
    {
        let fields = self.fields.as_slice();
        &fields[first..first + count as usize]
    }
}
