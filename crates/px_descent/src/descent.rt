//! Whether every definition descends, and which is the first that does not.

ghost use Rattle.std.specs.Prelude.{◌≤◌, length, IsOk, IfErr, OnOk};
ghost use Rattle.px_terms.specs.Descent.{AllDescend};
ghost use Rattle.px_descent.specs.Largest.{LargestServes};
ghost use Rattle.px_descent.specs.Ends.{TellsKept, NamesFirst, NamesFirstIn};

use crate::around::Around;
use crate::end::NoDescent;
use crate::kept::{Positions, clear_raised};
use crate::stuck::{Search, pass};
use px_terms::limits::PROGRAM_BYTES;
use px_terms::{Def, Program};

/// The positions of a definition of which is known at once whether they are kept. A parameter takes at least four bytes of
/// a program's text, so no text has a definition with more.
const POSITIONS: usize = PROGRAM_BYTES / 4;

/// Whether every definition descends: there are positions that no self-call raises, of which each self-call lowers one.
/// Else the first definition that does not. It takes no memory; its calls nest as deep as a body.
pub fn check_descent(program: &Program) -> Result<(), NoDescent>
    ensures descends { OnOk result (AllDescend program.now) }
    ensures first { IfErr result (NamesFirst program.now) }
    ensures only { AllDescend program.now → IsOk result }
{
    let mut room = [false; POSITIONS];
    for (number, definition) in program.defs.as_slice().iter().enumerate() {
        check_definition(program, number, definition, &mut room)?;
    }
    Ok(())
}

/// Whether the definition descends; else its first self-call that lowers no kept position. `room` is overwritten.
fn check_definition(
    program: &Program,
    def: usize,
    definition: &Def,
    room: &mut [bool],
) -> Result<(), NoDescent>
    ensures descends { OnOk result (LargestServes program.now def definition.now) }
    ensures first { IfErr result (NamesFirstIn program.now def definition.now) }
{
    let known = room.len().min(definition.params.len());
    let kept = &mut room[..known];
    find_kept(program, def, definition, kept);
    let search = Search {
        program,
        def,
        definition,
        kept,
    };
    pass(&search, &definition.body, &Around::Body, 0)?;
    Ok(())
}

/// Finds which of the definition's first positions each self-call keeps.
fn find_kept(program: &Program, def: usize, definition: &Def, kept: &mut [bool])
    requires { length kept.old ≤ length definition.now.params }
    ensures { TellsKept program.now def definition.now kept.new }
{
    kept.fill(true);
    let positions = Positions {
        program,
        def,
        first: 0,
    };
    clear_raised(&positions, &definition.body, &Around::Body, kept);
}
