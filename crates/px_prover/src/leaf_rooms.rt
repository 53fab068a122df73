//! The room of a leaf pair: how far a side of it may grow.
ghost use Rattle.std.specs.Prelude.{◌≡◌, ◌≤◌, ◌+◌, ◌*◌, ◌↔◌, IfOk, IsTrue};
ghost use Rattle.px_base.specs.declared.limits.TheConstants.{SEQUENT_NODES as NODES};
ghost use Rattle.px_terms.specs.Terms.{term_size};
ghost use Rattle.px_prover.specs.Rooms.{leaf_room};

use px_terms::limits::{SEQUENT_DEPTH, SEQUENT_NODES};
use px_terms::{NoMemory, Path, Term, depth, replace_at, size};
use std::alloc::Global;

/// A side of a leaf pair, one of so many, at its path in a whole side.
#[derive(Clone, Copy)]
pub(crate) struct LeafSide<'a> {
    pub(crate) count: u64,
    pub(crate) whole: &'a Term,
    pub(crate) path: &'a Path,
    pub(crate) before: &'a Term,
}

/// There is room for the term in place of the side. It takes memory for the whole side with the term in it.
pub(crate) fn has_room(alloc: Global, side: LeafSide, now: &Term) -> Result<bool, NoMemory>
    requires whole { term_size side.whole.now ≤ NODES }
    requires part { term_size side.before.now ≤ NODES }
    ensures { IfOk result (λ fits. IsTrue fits ↔ IsTrue (leaf_room side.entry.count side.entry.whole.now side.entry.path.now side.entry.before.now now.now)) }
{
    if !has_nodes(side, now) {
        return Ok(false);
    }
    match replace_at(alloc, side.whole, side.path, now)? {
        Some(whole) => Ok(depth(&whole) <= SEQUENT_DEPTH),
        None => Ok(depth(now) <= SEQUENT_DEPTH),
    }
}

/// The whole side would be within the limit of nodes if the part at each of the leaf pairs grew by as much. It takes no memory.
fn has_nodes(side: LeafSide, now: &Term) -> bool
    requires whole { term_size side.whole.now ≤ NODES }
    requires part { term_size side.before.now ≤ NODES }
    ensures { IsTrue result ↔ (term_size side.entry.whole.now + side.entry.count * term_size now.now ≤ NODES + side.entry.count * term_size side.entry.before.now) }
{
    let nodes = size(now);
    let before = size(side.before);
    if side.count == 0 {
        return true;
    }
    if nodes <= before {
        return true;
    }
    nodes - before <= (SEQUENT_NODES - size(side.whole)) / side.count
}
