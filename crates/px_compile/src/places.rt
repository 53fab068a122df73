//! Code from the first instruction to the last, with its places counted from the start.

ghost use Rattle.std.specs.Prelude.{◌≡◌, ℕ, ◌-◌, map, reverse, IfOk};
ghost use Rattle.px_compile.specs.Layout.{placed as placed_code, placed_instruction};

use crate::number::number;
use px_base::NoMemory;
use px_machine::Instr;
use sqlite_items::Items;
use std::alloc::Global;

/// The places counted from the start of so many instructions, where they are counted from the end. None lies before the start.
fn from_start(alloc: Global, places: &[u32], total: u32) -> Result<Items<u32>, NoMemory>
    ensures { IfOk result (λ counted. counted ≡ map (λ (place : ℕ). total - place) places.now) }
{
    let mut counted = Items::new(alloc);
    for place in places {
        counted.push(total.saturating_sub(*place))?;
    }
    Ok(counted)
}

/// The instruction with its places counted from the start of so many instructions, where they are counted from the end.
fn placed(alloc: Global, instr: Instr, total: u32) -> Result<Instr, NoMemory>
    ensures { IfOk result (λ i. i ≡ placed_instruction total instr) }
{
    match instr {
        Instr::Branch(places) => Ok(Instr::Branch(from_start(alloc, places.as_slice(), total)?)),
        Instr::Jump(place) => Ok(Instr::Jump(total.saturating_sub(place))),
        other => Ok(other),
    }
}

/// The instructions in the order in which they run, where the last comes first and places are counted from the end.
pub(crate) fn in_order(alloc: Global, mut backwards: Vec<Instr>) -> Result<Items<Instr>, NoMemory>
    ensures { IfOk result (λ code. code ≡ placed_code (reverse backwards.items)) }
{
    let total = number(backwards.len())?;
    let mut code = Items::new(alloc);
    while let Some(instr) = backwards.pop() {
        code.push(placed(alloc, instr, total)?)?;
    }
    Ok(code)
}
