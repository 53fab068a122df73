//! The code of a program.

ghost use Rattle.std.specs.Prelude.{◌≡◌, IfOk};
ghost use Rattle.px_machine.specs.Standing.{Stands};
ghost use Rattle.px_compile.specs.Layout.{definition_code};

use crate::emit::{Scope, emit_term, put};
use crate::number::number;
use crate::places::in_order;
use px_base::NoMemory;
use px_descent::Checked;
use px_machine::{Code, Instr, runs_have_one_end};
use px_terms::{Def, Program};
use sqlite_items::Items;
use std::alloc::Global;

/// The code of a definition: it pushes the body's value and returns it.
fn compile_definition(
    alloc: Global,
    program: &Program,
    definition: &Def,
) -> Result<Items<Instr>, NoMemory>
    ensures { IfOk result (λ code. code ≡ definition_code program.now definition.now) }
{
    let scope = Scope {
        program,
        locals: number(definition.params.len())?,
    };
    let mut code = Vec::new(alloc);
    put(&mut code, Instr::Return)?;
    emit_term(alloc, &mut code, &definition.body, &scope)?;
    in_order(alloc, code)
}

/// The code of a checked program: a run of a definition gives the value and the number of calls that its call has by the program's
/// meaning, and each place that an instruction names lies behind it. NoMemory where none is left, be it the machine's: it numbers
/// instructions, locals and values by 32 bits, so a definition that needs 2^32 of them has no place in it. The stack grows with the
/// depth of a body.
pub fn compile(alloc: Global, checked: &Checked) -> Result<Code, NoMemory>
    ensures { IfOk result (λ code. Stands code checked.now) }
{
    runs_have_one_end();
    let program = checked.program();
    let mut defs = Items::new(alloc);
    for definition in program.defs.as_slice() {
        defs.push(compile_definition(alloc, program, definition)?)?;
    }
    Ok(Code { defs })
}
