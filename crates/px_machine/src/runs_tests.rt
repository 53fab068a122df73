ghost use Rattle.std.specs.Prelude.{◌≡◌, ◌<◌, [], IfOk};
ghost use Rattle.px_machine.specs.Examples.{greater_and_made};

use crate::flat_value::FlatValue;
use crate::heap::Heap;
use crate::runs::begin;
use crate::{Call, CallTarget, Code, Done, Instr, RunEnd, runs_by_hand};
use px_base::NoMemory;
use sqlite_items::Items;
use std::alloc::Global;
use std::test::Fail;

/// A call of `target` on the two topmost values.
fn call(alloc: Global, target: CallTarget) -> Instr
    ensures { result ≡ Instr.Call target [] 2 }
{
    Instr::Call {
        target,
        funs: Items::new(alloc),
        n: 2,
    }
}

/// The code that is run by hand: the greater of two words, and what a function gives under a constructor.
fn small_code(alloc: Global) -> Result<Code, RunEnd>
    ensures { IfOk result (λ code. code ≡ greater_and_made) }
{
    let places = Items::from_slice(alloc, &[4, 6])?;
    let greater = [
        Instr::Local(0),
        Instr::Local(1),
        call(alloc, CallTarget::Wle),
        Instr::Branch(places),
        Instr::Local(0),
        Instr::Jump(7),
        Instr::Local(1),
        Instr::Return,
    ];
    let made = [
        Instr::Local(0),
        Instr::Lit(5),
        call(alloc, CallTarget::Param(0)),
        Instr::Local(0),
        Instr::Make {
            datatype: 3,
            con: 2,
            n: 2,
        },
        Instr::Return,
    ];
    let greater = Items::from_vec(Vec::from_array(alloc, greater)?);
    let made = Items::from_vec(Vec::from_array(alloc, made)?);
    Ok(Code {
        defs: Items::from_vec(Vec::from_array(alloc, [greater, made])?),
    })
}

/// What the second definition gives on 7 and the greater of two words, within the budget.
fn made_of_seven(alloc: Global, budget: u64) -> Result<Done, RunEnd>
    requires { 0 < budget }
{
    runs_by_hand();
    let code = small_code(alloc)?;
    let args = [FlatValue::literal(alloc, 7)?];
    let call = Call {
        def: 1,
        funs: &[CallTarget::Def(0)],
        args: &args,
    };
    let mut machine = begin(alloc, &call)?;
    let number = machine.run(alloc, &code, budget)?;
    Ok(Done {
        value: machine.heap.take_out(alloc, number)?,
        calls: machine.calls,
    })
}

#[test]
fn calls_are_counted_up_to_the_budget(rt: HostRuntime) -> Result<(), Fail> {
    let alloc = rt.alloc();
    let done = made_of_seven(alloc, 2)?;
    assert_eq!(rt; done.calls, 2);
    let fields = [FlatValue::literal(alloc, 7)?, FlatValue::literal(alloc, 7)?];
    assert!(rt; done.value.same(&FlatValue::make(alloc, 3, 2, &fields)?));
    assert!(rt; matches!(made_of_seven(alloc, 1), Err(RunEnd::Spent)));
    Ok(())
}

/// The value after it was put into a heap and taken out.
fn through_a_heap(alloc: Global, value: &FlatValue) -> Result<FlatValue, NoMemory> {
    let mut heap = Heap::new(alloc);
    heap.literal(0)?;
    let number = heap.put_in(alloc, value)?;
    heap.take_out(alloc, number)
}

#[test]
fn fields_keep_their_order_in_the_heap(rt: HostRuntime) -> Result<(), Fail> {
    let alloc = rt.alloc();
    let inner = [FlatValue::literal(alloc, 1)?, FlatValue::literal(alloc, 2)?];
    let fields = [
        FlatValue::make(alloc, 1, 0, &inner)?,
        FlatValue::literal(alloc, 3)?,
        FlatValue::make(alloc, 1, 1, &[])?,
    ];
    let value = FlatValue::make(alloc, 2, 0, &fields)?;
    assert!(rt; through_a_heap(alloc, &value)?.same(&value));
    Ok(())
}
