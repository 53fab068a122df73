ghost use Rattle.std.specs.Prelude.{◌≡◌, [], ◌∷◌, ◌++◌, OnOk, OnErr};

use smallvec::SmallVec;
use std::alloc::{AllocError, Global};
use std::marker::Model;

/// The place of a part of a term: the child numbers on the way to it from the whole term. The children
/// of a term are its constructor fields, its data arguments, or its scrutinee as child 0.
#[derive(Drop)]
pub struct Path {
    children: SmallVec<u32, 8>,
}

impl Model for Path {
    ghost use Rattle.std.specs.Prelude.{List, ℕ};

    ghost Value = { List ℕ };

    ghost view = { λ p. p.children.items };
}

impl Path {
    /// The place of the whole term. It takes no memory.
    pub fn new(alloc: Global) -> Path
        ensures { result ≡ [] }
    {
        Path {
            children: SmallVec::new(alloc),
        }
    }

    /// Goes on to a child. Without memory the path is unchanged.
    pub fn push(&mut self, child: u32) -> Result<(), AllocError>
        ensures ok { OnOk result (self.new ≡ self.old ++ child ∷ []) }
        ensures err { OnErr result (self.new ≡ self.old) }
    {
        self.children.push(child)?;
        Ok(())
    }

    /// The child numbers.
    pub fn as_slice(&self) -> &[u32]
        ensures { result.now ≡ self.now }
    {
        self.children.as_slice()
    }
}
