//! The machine while it runs: values as numbers of nodes, and what the instructions do to them.
ghost use Rattle.std.specs.Prelude.{◌≡◌, ◌≢◌, ◌<◌, ◌≤◌, ◌^◌, ◌+◌, ◌++◌, ◌∷◌, [], ℕ, List, Some, length, slice_get, OnOk, IfOk, IfErr};
ghost use Rattle.px_terms.specs.declared.term.Value.{out-Value};
ghost use Rattle.px_terms.specs.declared.term.Value.TheOpen.{Value-F};
ghost use Rattle.px_machine.specs.declared.code.CallTarget.{CallTarget as AnyTarget};
ghost use Rattle.px_machine.specs.Machine.{meant_target, meant_targets};
ghost use Rattle.px_machine.specs.Heap.{IsHeap, heap_trees, tree_at};
ghost use Rattle.px_machine.specs.Running.{parts_of, CanDo, Does, pushed, WordAt, StepsTo, SpendsAbove, IsRun, CanCall, IsCalled, IsAnswered, answer_of, cut};

use crate::code::{CallTarget, Instr};
use crate::heap::{Heap, Node};
use crate::numbers::take_last;
use crate::run_end::RunEnd;
use px_base::NoMemory;
use sqlite_items::Items;
use std::alloc::Global;
use std::mem::replace;

/// A frame that runs or waits: where it is in the code of its definition, where its locals and its stack begin among those of
/// all frames, and what stands for its function parameters.
#[derive(Drop)]
pub(crate) struct Activation {
    pub(crate) def: usize,
    pub(crate) place: usize,
    pub(crate) first_local: usize,
    pub(crate) first_value: usize,
    pub(crate) funs: Items<CallTarget>,
}

/// A run: its values, the locals and the stacks of all frames as numbers of nodes, the frame that runs, the frames that
/// wait, the nearest caller last, and the calls that are counted so far.
#[derive(Drop)]
pub(crate) struct Machine {
    pub(crate) heap: Heap,
    pub(crate) locals: Vec<usize>,
    pub(crate) stack: Vec<usize>,
    pub(crate) top: Activation,
    pub(crate) callers: Vec<Activation>,
    pub(crate) calls: u64,
}

impl Machine {
    /// Pushes the value of a node, and goes on.
    fn push(&mut self, number: usize) -> Result<(), NoMemory>
        requires { self.old.top.place + 1 < 2 ^ 64 }
        ensures { OnOk result (parts_of self.new ≡ pushed (parts_of self.old) number) }
    {
        self.stack.push(number)?;
        self.top.place += 1;
        Ok(())
    }

    /// Pushes a local.
    fn push_local(&mut self, local: u32) -> Result<(), NoMemory>
        requires place { self.old.top.place + 1 < 2 ^ 64 }
        requires can { CanDo (Instr.Local local) (parts_of self.old) }
        ensures { OnOk result (Does (Instr.Local local) (parts_of self.old) (parts_of self.new)) }
    {
        let number = self.locals[self.top.first_local + local as usize];
        self.push(number)
    }

    /// Pushes a word.
    fn push_literal(&mut self, word: u64) -> Result<(), NoMemory>
        requires place { self.old.top.place + 1 < 2 ^ 64 }
        requires can { CanDo (Instr.Lit word) (parts_of self.old) }
        ensures { OnOk result (Does (Instr.Lit word) (parts_of self.old) (parts_of self.new)) }
    {
        let number = self.heap.literal(word)?;
        self.push(number)
    }

    /// Goes on at another place.
    fn jump(&mut self, place: u32)
        requires can { CanDo (Instr.Jump place) (parts_of self.old) }
        ensures { Does (Instr.Jump place) (parts_of self.old) (parts_of self.new) }
    {
        self.top.place = place as usize;
    }

    /// Makes a constructor on the values at the top of the stack, in the order in which they were pushed.
    fn make(&mut self, datatype: u32, con: u32, count: u32) -> Result<(), NoMemory>
        requires place { self.old.top.place + 1 < 2 ^ 64 }
        requires can { CanDo (Instr.Make datatype con count) (parts_of self.old) }
        ensures { OnOk result (Does (Instr.Make datatype con count) (parts_of self.old) (parts_of self.new)) }
    {
        let start = self.stack.len() - count as usize;
        let number = self.heap.make(datatype, con, &self.stack[start..])?;
        self.stack.truncate(start);
        self.push(number)
    }

    /// Drops the last locals of the frame.
    fn forget(&mut self, count: u32)
        requires place { self.old.top.place + 1 < 2 ^ 64 }
        requires can { CanDo (Instr.Forget count) (parts_of self.old) }
        ensures { Does (Instr.Forget count) (parts_of self.old) (parts_of self.new) }
    {
        let left = self.locals.len().saturating_sub(count as usize);
        self.locals.truncate(left.max(self.top.first_local));
        self.top.place += 1;
    }

    /// Takes a constructor off the stack, appends its fields to the locals, and goes on at the place of its number.
    fn branch(&mut self, places: &[u32]) -> Result<(), NoMemory>
        requires can { CanDo (Instr.Branch places.now) (parts_of self.old) }
        ensures { OnOk result (Does (Instr.Branch places.now) (parts_of self.old) (parts_of self.new)) }
    {
        let number = take_last(&mut self.stack);
        let Node::Con {
            con,
            first,
            count,
            ..
        } = self.heap.node(number)
        else {
            unreachable!()
        };
        let fields = self.heap.fields_at(first, count);
        self.locals.extend_from_slice(fields)?;
        self.top.place = places[con as usize] as usize;
        Ok(())
    }

    /// Begins a frame of the definition on the values from this place of the stack on, and counts the call.
    fn enter(&mut self, def: u32, funs: Items<CallTarget>, start: usize) -> Result<(), NoMemory>
        requires place { self.old.top.place + 1 < 2 ^ 64 }
        requires calls { self.old.calls + 1 < 2 ^ 64 }
        requires can { CanCall (CallTarget.Def def) funs start (parts_of self.old) }
        ensures { OnOk result (IsCalled (CallTarget.Def def) funs start (parts_of self.old) (parts_of self.new)) }
    {
        let callee = Activation {
            def: def as usize,
            place: 0,
            first_local: self.locals.len(),
            first_value: start,
            funs,
        };
        self.locals.extend_from_slice(&self.stack[start..])?;
        self.stack.truncate(start);
        self.top.place += 1;
        self.callers.push(replace(&mut self.top, callee))?;
        self.calls += 1;
        Ok(())
    }

    /// Replaces the values from this place of the stack on by `False` or `True`, and goes on.
    fn answer(&mut self, start: usize, is: bool) -> Result<(), NoMemory>
        requires place { self.old.top.place + 1 < 2 ^ 64 }
        requires run { IsRun (cut (parts_of self.old) start) }
        ensures { OnOk result (IsAnswered start is (parts_of self.old) (parts_of self.new)) }
    {
        let number = self.heap.make(0, u32::from(is), &[])?;
        self.stack.truncate(start);
        self.push(number)
    }

    /// The word that a node stands for.
    fn word(&self, number: usize) -> u64
        requires heap { IsHeap self.now.heap }
        requires word { (w : ℕ) × WordAt self.now.heap number w }
        requires within { number < length self.now.heap.nodes.items }
        ensures { WordAt self.now.heap number result }
    {
        match self.heap.node(number) {
            Node::Lit(word) => word,
            Node::Con { .. } => unreachable!(),
        }
    }

    /// Compares the two words from this place of the stack on.
    fn compare(&mut self, target: CallTarget, start: usize) -> Result<(), NoMemory>
        requires place { self.old.top.place + 1 < 2 ^ 64 }
        requires can { (funs : List AnyTarget) × CanCall target funs start (parts_of self.old) }
        requires built_in { (n : ℕ) → target ≢ CallTarget.Def n }
        ensures { OnOk result ((funs : List AnyTarget) → IsCalled target funs start (parts_of self.old) (parts_of self.new)) }
    {
        let first = self.word(self.stack[start]);
        let second = self.word(self.stack[start + 1]);
        self.answer(start, answer(target, first, second))
    }

    /// Calls what the target stands for on the values at the top of the stack: a built-in pushes its truth value, a definition
    /// begins a frame and counts. Spent only where the definition's call is above the budget.
    fn call(
        &mut self,
        budget: u64,
        target: CallTarget,
        passed: Items<CallTarget>,
        start: usize,
    ) -> Result<(), RunEnd>
        requires place { self.old.top.place + 1 < 2 ^ 64 }
        requires can { CanCall target passed start (parts_of self.old) }
        ensures called { OnOk result (IsCalled target passed start (parts_of self.old) (parts_of self.new)) }
        ensures within { OnOk result (self.old.calls ≤ budget → self.new.calls ≤ budget) }
        ensures spent { IfErr result (λ end. end ≡ RunEnd.Spent → (d : ℕ) × (target ≡ CallTarget.Def d) × (budget ≤ self.old.calls)) }
    {
        match target {
            CallTarget::Def(def) => {
                if self.calls >= budget {
                    return Err(RunEnd::Spent);
                }
                self.enter(def, passed, start)?;
            }
            CallTarget::Wle | CallTarget::Weq => self.compare(target, start)?,
            CallTarget::Param(_) => unreachable!(),
        }
        Ok(())
    }

    /// Ends the frame with the value at the top of its stack, which its caller gets; where it has none the run ends with the
    /// value of the node that is answered.
    fn return_value(&mut self) -> Result<Option<usize>, NoMemory>
        requires can { CanDo Instr.Return (parts_of self.old) }
        ensures { IfOk result (λ end. StepsTo Instr.Return (parts_of self.old) (parts_of self.new) end) }
    {
        let number = take_last(&mut self.stack);
        let Some(caller) = self.callers.pop() else {
            return Ok(Some(number));
        };
        self.locals.truncate(self.top.first_local);
        self.stack.truncate(self.top.first_value);
        self.stack.push(number)?;
        self.top = caller;
        Ok(None)
    }

    /// Calls what the target stands for, with what the functions stand for, on the last `count` values of the stack.
    fn call_meant(
        &mut self,
        alloc: Global,
        budget: u64,
        target: CallTarget,
        funs: &[CallTarget],
        count: u32,
    ) -> Result<(), RunEnd>
        requires place { self.old.top.place + 1 < 2 ^ 64 }
        requires can { CanDo (Instr.Call target funs.now count) (parts_of self.old) }
        ensures called { OnOk result (Does (Instr.Call target funs.now count) (parts_of self.old) (parts_of self.new)) }
        ensures within { OnOk result (self.old.calls ≤ budget → self.new.calls ≤ budget) }
        ensures spent { IfErr result (λ end. end ≡ RunEnd.Spent → SpendsAbove budget (Instr.Call target funs.now count) (parts_of self.old)) }
    {
        let start = self.stack.len() - count as usize;
        let called = meant(self.top.funs.as_slice(), target);
        let passed = all_meant(alloc, self.top.funs.as_slice(), funs)?;
        self.call(budget, called, passed, start)
    }

    /// Does one instruction; where it ends the run, the number of the value's node is answered. Spent only where it calls a
    /// definition above the budget.
    pub(crate) fn step(
        &mut self,
        alloc: Global,
        budget: u64,
        instr: &Instr,
    ) -> Result<Option<usize>, RunEnd>
        requires place { self.old.top.place + 1 < 2 ^ 64 }
        requires can { CanDo instr.now (parts_of self.old) }
        ensures steps { IfOk result (λ end. StepsTo instr.now (parts_of self.old) (parts_of self.new) end) }
        ensures within { OnOk result (self.old.calls ≤ budget → self.new.calls ≤ budget) }
        ensures spent { IfErr result (λ end. end ≡ RunEnd.Spent → SpendsAbove budget instr.now (parts_of self.old)) }
    {
        match instr {
            Instr::Local(local) => self.push_local(*local)?,
            Instr::Lit(word) => self.push_literal(*word)?,
            Instr::Make { datatype, con, n } => self.make(*datatype, *con, *n)?,
            Instr::Call { target, funs, n } => {
                self.call_meant(alloc, budget, *target, funs.as_slice(), *n)?;
            }
            Instr::Branch(places) => self.branch(places.as_slice())?,
            Instr::Forget(count) => self.forget(*count),
            Instr::Jump(place) => self.jump(*place),
            Instr::Return => return Ok(self.return_value()?),
        }
        Ok(None)
    }
}

/// What a built-in answers of two words.
fn answer(target: CallTarget, first: u64, second: u64) -> bool
    ensures { result ≡ answer_of target first second }
{
    match target {
        CallTarget::Wle => first <= second,
        _ => first == second,
    }
}

/// What a target stands for in a frame with these function parameters.
fn meant(funs: &[CallTarget], target: CallTarget) -> CallTarget
    requires { (meant : AnyTarget) × (meant_target funs.now target ≡ Some meant) }
    ensures { meant_target funs.now target ≡ Some result }
{
    match target {
        CallTarget::Param(number) => funs[number as usize],
        _ => target,
    }
}

/// What several targets stand for.
fn all_meant(
    alloc: Global,
    funs: &[CallTarget],
    targets: &[CallTarget],
) -> Result<Items<CallTarget>, NoMemory>
    requires { (all : List AnyTarget) × (meant_targets funs.now targets.now ≡ Some all) }
    ensures { IfOk result (λ all. meant_targets funs.now targets.now ≡ Some all) }
{
    let mut all = Items::new(alloc);
    for target in targets {
        all.push(meant(funs, *target))?;
    }
    Ok(all)
}
