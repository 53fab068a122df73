//! Whole programs.
ghost use Rattle.std.specs.Prelude.{◌≡◌, slice_get, Some, Ok, Err, IfOk, IfErr};
ghost use Rattle.px_base.specs.declared.raw.Decl.{Decl as AnyDecl};
ghost use Rattle.px_base.specs.Fitting.{IsFitting};
ghost use Rattle.px_terms.specs.declared.program.Program.{Program as AnyProgram};
ghost use Rattle.px_terms.specs.Numbered.{HasNumbers};
ghost use Rattle.px_terms.specs.TypedPrograms.{IsTyped};
ghost use Rattle.px_types.specs.declared.ends.TypeEnd.TheVariants as ends;
ghost use Rattle.px_types.specs.Faults.{Broken};
ghost use Rattle.px_types.specs.Answers.{Answers};
ghost use Rattle.px_types.specs.Checkings.{AreFew, IsEnd, IsUnlessNoMemory, Takes};
ghost use Rattle.px_types.specs.Declarations.{IsFault, IsProgramOf, start};
ghost use Rattle.px_types.specs.NextOutcome.{next_found, program_found};
ghost use Rattle.px_types.specs.Outcomes.{along};

use crate::checking::Checking;
use crate::ends::TypeEnd;
use px_terms::{Program, RawProgram};
use std::alloc::Global;

/// The typed program of a written one, or the first fault of typing: declaration by declaration in the order of the text, of
/// each first what it says of types and properties, and then its terms. It takes memory; its calls nest as deep as the
/// terms.
pub fn check_types(alloc: Global, raw: RawProgram) -> Result<Program, TypeEnd>
    requires { IsFitting raw }
    ensures answers { Answers (program_found raw) result }
    ensures ok { IfOk result (IsProgramOf raw) }
    ensures fault { IfErr result (IsEnd raw) }
    // The program is typed, its parts can be numbered, and it has the names of the written one.
    ensures typed { IfOk result IsTyped }
    ensures numbered { IfOk result HasNumbers }
    ensures names { IfOk result (λ program. program.names ≡ raw.names) }
    // Unless memory runs out, the one typed program is answered, and so is the one fault.
    ensures each_program { (P : AnyProgram) → IsProgramOf raw P → IsUnlessNoMemory (Ok P) result }
    ensures each_fault { (fault : Broken) → IsFault raw fault → IsUnlessNoMemory (Err (ends.Fault fault.kind fault.at)) result }
{
    type_program(alloc, raw)
}

/// The program of all declarations, with the names of the written one, or the first fault. It takes memory.
fn type_program(alloc: Global, raw: RawProgram) -> Result<Program, TypeEnd>
    requires { IsFitting raw }
    ensures { Answers (program_found raw) result }
{
    let checking = check_order(alloc, &raw)?;
    let RawProgram {
        order: _,
        datatypes: _,
        defs: _,
        claims: _,
        lemmas: _,
        replicas: _,
        names,
    } = raw;
    Ok(checking.finish(names))
}

/// All declarations, taken in their order, or the first fault. It takes memory.
fn check_order(alloc: Global, raw: &RawProgram) -> Result<Checking, TypeEnd>
    requires { IsFitting raw.now }
    ensures { Answers (along (next_found raw.now) start raw.now.order) result }
{
    let mut checking = Checking::new(alloc)?;
    for number in 0..raw.order.len() as u32 {
        take_next(&mut checking, raw, number)?;
    }
    Ok(checking)
}

/// Takes the declaration at this place of the order, or answers its first fault. It takes memory.
fn take_next(checking: &mut Checking, raw: &RawProgram, number: u32) -> Result<(), TypeEnd>
    requires { AreFew checking.old }
    ensures { (declaration : AnyDecl) → slice_get raw.now.order number ≡ Some declaration → Takes (next_found raw.now checking.old declaration) checking.new result }
{
    checking.signature(raw, number)?;
    checking.terms(raw, number)
}
