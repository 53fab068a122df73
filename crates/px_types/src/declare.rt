//! Declarations of each kind.
ghost use Rattle.std.specs.Prelude.{◌≡◌, OnErr};
ghost use Rattle.px_types.specs.Answers.{Answers};
ghost use Rattle.px_types.specs.Checkings.{AreFew, AreNotes, Takes};
ghost use Rattle.px_types.specs.Declarations.{obligations_of, with_obligations};
ghost use Rattle.px_types.specs.NextOutcome.{claim_found, terms_found, types_found};

use crate::datatypes::{check_datatype, take_datatype};
use crate::definitions::{check_signature, take_definition};
use crate::ends::TypeEnd;
use crate::lemmas::{check_variables, take_lemma};
use crate::notes::declare;
use crate::replicas::{check_state, take_replica};
use crate::signatures::check_props;
use px_terms::{Decl, Head, Program, PropSet, RawClaim, RawProgram};
use sqlite_items::{Items, at};
use std::alloc::Global;

/// Nothing, where what the next declaration says of types and properties is right, or it is not there; else the first fault.
/// The program is as before. It takes memory.
pub(crate) fn check_declaration(
    alloc: Global,
    program: &mut Program,
    raw: &RawProgram,
    declaration: Decl,
) -> Result<(), TypeEnd>
    requires { AreFew program.old }
    ensures same { program.new ≡ program.old }
    ensures answers { Answers (types_found raw.now program.old declaration) result }
{
    match declaration {
        Decl::Datatype(number) => match at(raw.datatypes.as_slice(), number as usize) {
            Some(datatype) => check_datatype(alloc, program, datatype),
            None => Ok(()),
        },
        Decl::Definition(number) => match at(raw.defs.as_slice(), number as usize) {
            Some(definition) => check_signature(alloc, program, definition),
            None => Ok(()),
        },
        Decl::Claim(number) => match at(raw.claims.as_slice(), number as usize) {
            Some(claim) => check_claim(program, claim),
            None => Ok(()),
        },
        Decl::Lemma(number) => match at(raw.lemmas.as_slice(), number as usize) {
            Some(lemma) => check_variables(alloc, program, lemma),
            None => Ok(()),
        },
        Decl::Replica(number) => match at(raw.replicas.as_slice(), number as usize) {
            Some(replica) => check_state(alloc, program, replica),
            None => Ok(()),
        },
    }
}

/// Nothing, where each property of the claim fits its definition; else the fault of the first that does not. It takes no
/// memory.
#[tactic(auto, unfolding(crate::specs::NextOutcome::claim_found))]
fn check_claim(program: &Program, raw: &RawClaim) -> Result<(), TypeEnd>
    ensures { Answers (claim_found program.now raw.now) result }
{
    check_props(program, Head::Def(raw.def), &[], raw.props.as_slice())
}

/// Puts the properties of a claim behind the obligations. Without memory the program is unchanged.
fn take_claim(
    program: &mut Program,
    notes: &mut Items<PropSet>,
    raw: &RawClaim,
) -> Result<(), TypeEnd>
    requires { AreNotes program.old.declared notes.old }
    ensures notes { AreNotes program.new.declared notes.new }
    ensures same { OnErr result (program.new ≡ program.old) }
    ensures answers { Takes (Ok (with_obligations program.old (obligations_of raw.now.def raw.now.props))) program.new result }
{
    declare(program, notes, raw.def, raw.props.as_slice())?;
    Ok(())
}

/// Puts the next declaration, whose types and properties are right, into the program, or answers the first fault of its
/// terms; the program is then as before, as it is where there is no such declaration. It takes memory.
pub(crate) fn take_declaration(
    alloc: Global,
    program: &mut Program,
    notes: &mut Items<PropSet>,
    raw: &RawProgram,
    declaration: Decl,
) -> Result<(), TypeEnd>
    requires few { AreFew program.old }
    requires notes { AreNotes program.old.declared notes.old }
    ensures notes { AreNotes program.new.declared notes.new }
    ensures same { OnErr result (program.new ≡ program.old) }
    ensures answers { Takes (terms_found raw.now program.old declaration) program.new result }
{
    match declaration {
        Decl::Datatype(number) => match at(raw.datatypes.as_slice(), number as usize) {
            Some(datatype) => take_datatype(alloc, program, datatype),
            None => Ok(()),
        },
        Decl::Definition(number) => match at(raw.defs.as_slice(), number as usize) {
            Some(definition) => take_definition(alloc, program, notes, definition),
            None => Ok(()),
        },
        Decl::Claim(number) => match at(raw.claims.as_slice(), number as usize) {
            Some(claim) => take_claim(program, notes, claim),
            None => Ok(()),
        },
        Decl::Lemma(number) => match at(raw.lemmas.as_slice(), number as usize) {
            Some(lemma) => take_lemma(alloc, program, notes, lemma),
            None => Ok(()),
        },
        Decl::Replica(number) => match at(raw.replicas.as_slice(), number as usize) {
            Some(replica) => take_replica(alloc, program, notes, replica),
            None => Ok(()),
        },
    }
}
