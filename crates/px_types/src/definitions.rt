//! Definitions.
ghost use Rattle.std.specs.Prelude.{◌≡◌, ◌<◌, [], length, slice_get, Some, OnErr};
ghost use Rattle.px_terms.specs.declared.program.Def.{Def as AnyDef};
ghost use Rattle.px_terms.specs.Typing.{in_body};
ghost use Rattle.px_types.specs.Answers.{Answers};
ghost use Rattle.px_types.specs.Checkings.{AnswersAs, AreFew, AreNotes, Takes, own_env, with_whole};
ghost use Rattle.px_types.specs.NextOutcome.{body_found, signature_found};
ghost use Rattle.px_types.specs.Outcome.{part_found, part_of};
ghost use Rattle.px_types.specs.Scopes.{Knows};

use crate::ends::TypeEnd;
use crate::env::{Env, Stand};
use crate::lists::take_last;
use crate::notes::declare;
use crate::signatures::{check_assumed, check_props, type_heading};
use crate::terms::type_part;
use px_terms::{Def, Head, Program, PropSet, RawDef, RawTerm, Term};
use sqlite_items::Items;
use std::alloc::Global;

/// Nothing, where the next definition's types are right and each property fits; else its first fault. The program is as
/// before. It takes memory.
pub(crate) fn check_signature(
    alloc: Global,
    program: &mut Program,
    raw: &RawDef,
) -> Result<(), TypeEnd>
    requires { AreFew program.old }
    ensures same { program.new ≡ program.old }
    ensures answers { Answers (signature_found program.old raw.now) result }
{
    let heading = type_heading(alloc, program, raw)?;
    check_assumed(program, heading.funs.as_slice(), raw.funs.as_slice())?;
    let own = Head::Def(program.defs.len() as u32);
    program.defs.push(heading)?;
    let fit = check_props(program, own, &[], raw.props.as_slice());
    take_last(&mut program.defs);
    fit
}

/// Puts the next definition, whose signature is right, behind those of the program, and its properties behind the
/// obligations; or answers the first fault of its body, and the program is then as before. It takes memory.
pub(crate) fn take_definition(
    alloc: Global,
    program: &mut Program,
    notes: &mut Items<PropSet>,
    raw: &RawDef,
) -> Result<(), TypeEnd>
    requires few { AreFew program.old }
    requires notes { AreNotes program.old.declared notes.old }
    ensures notes { AreNotes program.new.declared notes.new }
    ensures same { OnErr result (program.new ≡ program.old) }
    ensures answers { Takes (body_found program.old raw.now) program.new result }
{
    let definition = type_whole(alloc, program, notes, raw)?;
    let number = program.defs.len() as u32;
    program.defs.push(definition)?;
    if let Err(_end) = declare(program, notes, number, raw.props.as_slice()) {
        take_last(&mut program.defs);
        return Err(TypeEnd::NoMemory);
    }
    Ok(())
}

/// The next definition, whose signature is right, with its body, or the body's first fault. The definition stands in the
/// program meanwhile, with a literal for its body. It takes memory.
fn type_whole(
    alloc: Global,
    program: &mut Program,
    notes: &Items<PropSet>,
    raw: &RawDef,
) -> Result<Def, TypeEnd>
    requires few { AreFew program.old }
    requires notes { AreNotes program.old.declared notes.now }
    ensures same { program.new ≡ program.old }
    ensures answers { AnswersAs (with_whole program.old raw.now) (body_found program.old raw.now) result }
{
    let heading = type_heading(alloc, program, raw)?;
    let number = program.defs.len() as u32;
    program.defs.push(heading)?;
    let found = type_body(alloc, program, notes, number, &raw.body);
    let heading = take_last(&mut program.defs);
    let body = found?;
    Ok(with_body(heading, body))
}

/// The definition with this body. It takes no memory.
fn with_body(definition: Def, body: Term) -> Def
    ensures { result ≡ record definition { body = body } }
{
    let Def {
        tparams,
        funs,
        params,
        result: given,
        body: _,
        seen,
    } = definition;
    Def {
        tparams,
        funs,
        params,
        result: given,
        body,
        seen,
    }
}

/// The body of this definition of the program, or its first fault. It takes memory.
fn type_body(
    alloc: Global,
    program: &Program,
    notes: &Items<PropSet>,
    number: u32,
    raw: &RawTerm,
) -> Result<Term, TypeEnd>
    requires there { number < length program.now.defs }
    requires knows { Knows program.now (in_body number) notes.now }
    ensures { (D : AnyDef) → slice_get program.now.defs number ≡ Some D → Answers (part_found (own_env program.now number D) [] (part_of (own_env program.now number D) raw.now) D.result) result }
{
    let definition = &program.defs.as_slice()[number as usize];
    let env = Env {
        alloc,
        program,
        place: Stand::Body(number),
        tparams: definition.tparams,
        funs: &definition.funs,
        vars: &definition.params,
        known: notes,
    };
    let mut bound = Items::new(alloc);
    type_part(&env, raw, &definition.result, &mut bound)
}
