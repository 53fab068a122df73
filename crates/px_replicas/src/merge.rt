//! The merge of a replica declaration, as a call of the machine.
ghost use Rattle.std.specs.Prelude.{◌≡◌, ℕ, IfOk};
ghost use Rattle.px_base.specs.declared.head.Head.TheVariants as head;
ghost use Rattle.px_terms.specs.declared.program.ReplicaDef.{ReplicaDef as AnyReplica};
ghost use Rattle.px_terms.specs.declared.program.Program.{Program as AnyProgram};
ghost use Rattle.px_terms.specs.Values.{IsIn};
ghost use Rattle.px_machine.specs.Standing.{head_target, targets_of};
ghost use Rattle.px_replicas.specs.Serving.{IsMergeOf, Serves, CanMerge, MergesWithin};

use px_base::NoMemory;
use px_machine::{Call, CallTarget, Code, FlatValue, RunEnd, run};
use px_terms::{Fun, Head, ReplicaDef};
use px_totality::each_call_has_value;
use sqlite_items::Items;
use std::alloc::Global;

/// The definition that merges, the functions that it is given, and the program's code.
#[derive(Drop)]
pub(crate) struct Merge<'a> {
    code: &'a Code,
    def: u32,
    funs: Items<CallTarget>,
}

/// What stands for a function; its types are nothing to the machine.
fn target(head: Head) -> CallTarget
    ensures { result ≡ head_target head }
{
    match head {
        Head::Def(number) => CallTarget::Def(number),
        Head::Wle => CallTarget::Wle,
        Head::Weq => CallTarget::Weq,
        Head::FnVar(number) => CallTarget::Param(number),
    }
}

/// What stands for functions, in order.
fn targets(alloc: Global, funs: &[Fun]) -> Result<Items<CallTarget>, NoMemory>
    ensures { IfOk result (λ targets. targets ≡ targets_of funs.now) }
{
    let mut targets = Items::new(alloc);
    for fun in funs {
        targets.push(target(fun.head))?;
    }
    Ok(targets)
}

impl<'a> Merge<'a> {
    /// The merge of a declaration.
    pub(crate) fn new(
        alloc: Global,
        code: &'a Code,
        replica: &ReplicaDef,
    ) -> Result<Merge<'a>, NoMemory>
        requires { (n : ℕ) × (replica.now.merge.head ≡ head.Def n) }
        ensures { IfOk result (λ merge. IsMergeOf code.now replica.now merge) }
    {
        let Head::Def(def) = replica.merge.head else {
            unreachable!()
        };
        Ok(Merge {
            code,
            def,
            funs: targets(alloc, replica.funs.as_slice())?,
        })
    }

    /// The merge of two states; Spent exactly where it takes more calls than the budget.
    pub(crate) fn run(
        &self,
        alloc: Global,
        one: &FlatValue,
        other: &FlatValue,
        budget: u64,
    ) -> Result<FlatValue, RunEnd>
        requires { CanMerge self.now one.now other.now }
        ensures { (P : AnyProgram) (R : AnyReplica) → Serves P R self.now → IsIn P R.state one.now → IsIn P R.state other.now → MergesWithin P R one.now other.now budget result }
    {
        each_call_has_value();
        let args = vec![in alloc; one.copy(alloc)?, other.copy(alloc)?]?;
        let call = Call {
            def: self.def,
            funs: self.funs.as_slice(),
            args: &args,
        };
        Ok(run(alloc, self.code, &call, budget)?.value)
    }
}
