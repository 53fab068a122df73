//! What a call begins.

ghost use Rattle.std.specs.Prelude.{◌≡◌, IfOk};
ghost use Rattle.px_machine.specs.Standing.{head_target, targets_of};

use px_base::NoMemory;
use px_machine::CallTarget;
use px_terms::{Fun, Head};
use sqlite_items::Items;
use std::alloc::Global;

/// The target that stands for a function; its types are nothing to the machine.
pub(crate) fn target(head: Head) -> CallTarget
    ensures { result ≡ head_target head }
{
    match head {
        Head::Def(number) => CallTarget::Def(number),
        Head::Wle => CallTarget::Wle,
        Head::Weq => CallTarget::Weq,
        Head::FnVar(number) => CallTarget::Param(number),
    }
}

/// The targets that stand for functions, in order.
pub(crate) fn targets(alloc: Global, funs: &[Fun]) -> Result<Items<CallTarget>, NoMemory>
    ensures { IfOk result (λ targets. targets ≡ targets_of funs.now) }
{
    let mut targets = Items::new(alloc);
    for fun in funs {
        targets.push(target(fun.head))?;
    }
    Ok(targets)
}
