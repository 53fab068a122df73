//! The run of a call.
ghost use Rattle.std.specs.Prelude.{◌≡◌, ◌<◌, ◌≤◌, ◌+◌, ◌^◌, ℕ, Some, OnOk, IfOk, IfErr};
ghost use Rattle.px_terms.specs.declared.term.Value.{Value as Tree};
ghost use Rattle.px_machine.specs.declared.code.Instr.{Instr as AnyInstr};
ghost use Rattle.px_machine.specs.Machine.{RunGives, instruction_at};
ghost use Rattle.px_machine.specs.Running.{parts_of, state_of, IsRun, IsBegun, HasEnd, IsEnded, TakesMore};
ghost use Rattle.px_machine.specs.Standing.{FitsCode, IsForward};

use crate::code::{CallTarget, Code, Instr};
use crate::flat_value::FlatValue;
use crate::heap::Heap;
use crate::machine::{Activation, Machine};
use crate::run_end::RunEnd;
use px_base::NoMemory;
use px_totality::each_call_has_value;
use sqlite_items::{Items, at};
use std::alloc::Global;

/// A call of a definition.
#[derive(Clone, Copy)]
pub struct Call<'a> {
    /// The definition's number.
    pub def: u32,
    /// What stands for its function parameters, in order.
    pub funs: &'a [CallTarget],
    /// Its arguments, in order.
    pub args: &'a [FlatValue],
}

/// What a call gives.
#[derive(Drop)]
pub struct Done {
    /// The value of the call.
    pub value: FlatValue,
    /// How many calls of definitions it takes, itself one of them. Built-ins do not count.
    pub calls: u64,
}

/// Runs a call of a definition by the code of a checked program, in which the functions and arguments fit the definition's
/// parameters. Spent exactly where the call takes more calls than the budget. It takes memory for the values that it makes, which are
/// kept until it ends.
pub fn run(alloc: Global, code: &Code, call: &Call<'_>, budget: u64) -> Result<Done, RunEnd>
    requires { FitsCode code.now call.now.def call.now.funs.now call.now.args.now }
    ensures gives { IfOk result (λ done. RunGives code.now call.now.def call.now.funs.now call.now.args.now done.value done.calls × (done.calls ≤ budget)) }
    ensures spent { IfErr result (λ end. end ≡ RunEnd.Spent → (v : Tree) × (calls : ℕ) × RunGives code.now call.now.def call.now.funs.now call.now.args.now v calls × (budget < calls)) }
{
    each_call_has_value();
    if budget == 0 {
        return Err(RunEnd::Spent);
    }
    let mut machine = begin(alloc, call)?;
    let number = machine.run(alloc, code, budget)?;
    Ok(Done {
        value: machine.heap.take_out(alloc, number)?,
        calls: machine.calls,
    })
}

/// The machine before the first instruction of a call, which is counted.
pub(crate) fn begin(alloc: Global, call: &Call<'_>) -> Result<Machine, NoMemory>
    ensures { IfOk result (λ machine. IsBegun call.now.def call.now.funs.now call.now.args.now (parts_of machine)) }
{
    let mut heap = Heap::new(alloc);
    let mut locals = Vec::new(alloc);
    for arg in call.args {
        locals.push(heap.put_in(alloc, arg)?)?;
    }
    Ok(Machine {
        heap,
        locals,
        stack: Vec::new(alloc),
        top: Activation {
            def: call.def as usize,
            place: 0,
            first_local: 0,
            first_value: 0,
            funs: Items::from_slice(alloc, call.funs)?,
        },
        callers: Vec::new(alloc),
        calls: 1,
    })
}

impl Machine {
    /// Does one instruction after the other to the end of the run, and answers the number of its value's node.
    pub(crate) fn run(&mut self, alloc: Global, code: &Code, budget: u64) -> Result<usize, RunEnd>
        requires forward { IsForward code.now }
        requires run { IsRun (parts_of self.old) }
        requires ends { HasEnd code.now (state_of (parts_of self.old)) }
        requires within { self.old.calls ≤ budget }
        ensures ended { IfOk result (λ number. IsEnded code.now (state_of (parts_of self.old)) (parts_of self.new) number) }
        ensures within { OnOk result (self.new.calls ≤ budget) }
        ensures spent { IfErr result (λ end. end ≡ RunEnd.Spent → TakesMore code.now (state_of (parts_of self.old)) budget) }
    {
        loop {
            let instr = instruction(code, self.top.def, self.top.place);
            if let Some(number) = self.step(alloc, budget, instr)? {
                return Ok(number);
            }
        }
    }
}

/// The instruction at a place of a definition.
fn instruction(code: &Code, def: usize, place: usize) -> &Instr
    requires { (instr : AnyInstr) × (instruction_at code.now def place ≡ Some instr) }
    ensures at { instruction_at code.now def place ≡ Some result.now }
    ensures more { place + 1 < 2 ^ 64 }
{
    let Some(instructions) = at(code.defs.as_slice(), def) else {
        unreachable!()
    };
    let Some(instr) = at(instructions.as_slice(), place) else {
        unreachable!()
    };
    instr
}
