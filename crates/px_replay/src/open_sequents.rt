//! Open sequents, and where a replay stands.
ghost use Rattle.std.specs.Prelude.{◌≡◌, ◌++◌, ◌↔◌, ◌⊎◌, All, IsTrue, OnOk, map, reverse};
ghost use Rattle.px_terms.specs.Sequents.{IsWithinLimits};
ghost use Rattle.px_replay.specs.Replaying.{IsRightlyMarked, child_within};

use crate::limits::is_within_limits;
use px_terms::{NoMemory, Sequent};
use sqlite_items::Items;

/// A sequent that is still to be derived. Where it is marked so, it is within the limits: each child of a row is, and the
/// first sequent of an obligation need not be.
#[derive(Drop)]
pub(crate) struct Open {
    pub(crate) sequent: Sequent,
    pub(crate) is_within: bool,
}

/// The number of the next obligation, and what is open in the one before it; the last item of the stack is its top.
#[derive(Drop)]
pub(crate) struct Progress {
    pub(crate) next: u32,
    pub(crate) stack: Items<Open>,
}

impl Open {
    /// The first sequent of an obligation.
    pub(crate) fn first(sequent: Sequent) -> Open
        ensures sequent { result.sequent ≡ sequent }
        ensures marked { IsRightlyMarked result }
    {
        let is_within = is_within_limits(&sequent);
        Open { sequent, is_within }
    }

    /// A child of a row.
    pub(crate) fn child(sequent: Sequent) -> Open
        requires { IsWithinLimits sequent }
        ensures { result ≡ child_within sequent }
    {
        Open {
            sequent,
            is_within: true,
        }
    }
}

/// Whether the sequent that a row changed was within the limits and kept so, or is found to be within them now.
pub(crate) fn is_child_within(was_within: bool, child: &Sequent) -> bool
    ensures { IsTrue result ↔ (IsTrue was_within ⊎ IsWithinLimits child.now) }
{
    was_within || is_within_limits(child)
}

/// Moves the sequents onto the stack, the first on top.
pub(crate) fn push_reversed(
    stack: &mut Items<Open>,
    mut children: Items<Sequent>,
) -> Result<(), NoMemory>
    requires { All IsWithinLimits children }
    ensures { OnOk result (stack.new ≡ stack.old ++ map child_within (reverse children)) }
{
    while let Some(child) = children.pop() {
        stack.push(Open::child(child))?;
    }
    Ok(())
}
