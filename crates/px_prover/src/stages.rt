//! What normalising a term leaves beside it: what its parts are blocked at, and the steps that were taken.

ghost use Rattle.std.specs.Prelude.{◌≡◌, [], ◌∷◌, ◌++◌, IfOk, OnOk};
ghost use Rattle.px_prover.specs.Norms.{no_stop};
ghost use Rattle.px_prover.specs.Normalising.{moves_below, moves_of, stops_in};
ghost use Rattle.px_prover.specs.declared.stages.Stage.TheVariants as staged;

use px_terms::{Kind, NoMemory, Term};
use sqlite_items::Items;
use std::alloc::Global;

/// What a normal term is blocked at, if it is, and the same of its parts in order.
#[derive(Drop)]
pub(crate) struct StopTree {
    pub(crate) own: Option<Term>,
    pub(crate) parts: Items<StopTree>,
}

/// Steps, in the order in which they were taken: one at a term itself, or some below one of its children.
#[derive(Drop)]
pub(crate) enum Stage {
    Here(Kind),
    Below { child: u32, stages: Items<Stage> },
}

/// What is left for normalising: units, and by how many nodes the whole side may grow.
#[derive(Clone, Copy)]
pub(crate) struct Left {
    pub(crate) units: u32,
    pub(crate) spare: u64,
}

/// How far a term may grow where it stands: by a step only where a unit is left, to so many nodes, and so many levels.
#[derive(Clone, Copy)]
pub(crate) struct Room {
    pub(crate) units: u32,
    pub(crate) nodes: u64,
    pub(crate) levels: u32,
}

/// A normal term: what is left, what it and its parts are blocked at, and the steps that led to it.
#[derive(Drop)]
pub(crate) struct Normal {
    pub(crate) left: Left,
    pub(crate) term: Term,
    pub(crate) stops: StopTree,
    pub(crate) stages: Items<Stage>,
}

/// A term with normal parts: what is left, what each part is blocked at, and the steps that led to it.
#[derive(Drop)]
pub(crate) struct Parted {
    pub(crate) left: Left,
    pub(crate) term: Term,
    pub(crate) parts: Items<StopTree>,
    pub(crate) stages: Items<Stage>,
}

/// Normal terms, one beside the other: what is left, what each is blocked at, and the steps that led to them.
#[derive(Drop)]
pub(crate) struct Parts {
    pub(crate) left: Left,
    pub(crate) terms: Items<Term>,
    pub(crate) stops: Items<StopTree>,
    pub(crate) stages: Items<Stage>,
}

/// Nothing is blocked, here or below. It takes no memory.
pub(crate) fn no_stops(alloc: Global) -> StopTree
    ensures { stops_in result ≡ no_stop }
{
    StopTree {
        own: None,
        parts: Items::new(alloc),
    }
}

/// One step, at the term itself. It takes memory, and fails only where there is none.
pub(crate) fn one_stage(alloc: Global, kind: Kind) -> Result<Items<Stage>, NoMemory>
    ensures { IfOk result (λ stages. stages ≡ staged.Here kind ∷ []) }
{
    let mut stages = Items::new(alloc);
    stages.push(Stage::Here(kind))?;
    Ok(stages)
}

/// Puts steps below a child behind the others; nothing where there are none. It takes memory, and fails only where there is
/// none.
pub(crate) fn push_below(
    stages: &mut Items<Stage>,
    child: u32,
    below: Items<Stage>,
) -> Result<(), NoMemory>
    ensures { OnOk result (moves_of stages.new ≡ moves_of stages.old ++ moves_below child (moves_of below)) }
{
    if !below.is_empty() {
        stages.push(Stage::Below {
            child,
            stages: below,
        })?;
    }
    Ok(())
}
