//! Checking, one declaration at a time, and of whole programs.
use crate::declare::{check_declaration, take_declaration};
use crate::ends::TypeEnd;
use crate::start::start_program;
use px_terms::{Names, NoMemory, Program, PropSet, RawProgram};
use sqlite_items::{Items, at};
use std::alloc::Global;
use std::marker::Model;

/// The program of the declarations that were taken so far, with no names yet. Contracts see it as this program. `notes` has
/// the properties that are declared of each definition, by its number.
#[derive(Drop)]
pub struct Checking {
    alloc: Global,
    program: Program,
    notes: Items<PropSet>,
}

impl Model for Checking {
    ghost use Rattle.px_terms.specs.declared.program.Program.{Program as AnyProgram};
    ghost use Rattle.px_terms.specs.contracts.program.Program as contracts;
    ghost use Rattle.px_types.specs.Checkings.{AreNotes};

    ghost Value = { AnyProgram };

    ghost coded = { contracts.the_row.coded };

    ghost view = { λ c. c.program };

    ghost invariant = { λ c. AreNotes c.program.declared c.notes };
}

impl Checking {
    ghost use Rattle.std.specs.Prelude.{◌≡◌, slice_get, Some, None, IsOk, IfOk, OnErr};
    ghost use Rattle.px_base.specs.declared.raw.Decl.{Decl as AnyDecl};
    ghost use Rattle.px_types.specs.Answers.{Answers};
    ghost use Rattle.px_types.specs.Checkings.{AreFew, Takes};
    ghost use Rattle.px_types.specs.Declarations.{start};
    ghost use Rattle.px_types.specs.NextOutcome.{terms_found, types_found};

    /// Nothing is taken yet: `Bool` alone is there. It takes memory, and fails only where there is none.
    pub fn new(alloc: Global) -> Result<Checking, NoMemory>
        ensures { IfOk result (λ checking. checking ≡ start) }
    {
        let program = start_program(alloc)?;
        Ok(Checking {
            alloc,
            program,
            notes: Items::new(alloc),
        })
    }

    /// Nothing, where what the declaration at this place of the order says of types and properties is right after those that
    /// were taken; else its first fault, or that no memory was left. Nothing is taken. Where there is no such declaration,
    /// there is no fault.
    pub fn signature(&mut self, raw: &RawProgram, number: u32) -> Result<(), TypeEnd>
        requires { AreFew self.old }
        ensures same { self.new ≡ self.old }
        ensures answers { (declaration : AnyDecl) → slice_get raw.now.order number ≡ Some declaration → Answers (types_found raw.now self.old declaration) result }
        ensures absent { slice_get raw.now.order number ≡ None → IsOk result }
    {
        let alloc = self.alloc;
        match at(raw.order.as_slice(), number as usize) {
            Some(declaration) => check_declaration(alloc, &mut self.program, raw, *declaration),
            None => Ok(()),
        }
    }

    /// Takes the declaration at this place of the order, whose signature is right, where its terms are right too; else answers
    /// their first fault, or that no memory was left, and nothing is taken. Where there is no such declaration, nothing is.
    pub fn terms(&mut self, raw: &RawProgram, number: u32) -> Result<(), TypeEnd>
        requires { AreFew self.old }
        ensures same { OnErr result (self.new ≡ self.old) }
        ensures answers { (declaration : AnyDecl) → slice_get raw.now.order number ≡ Some declaration → Takes (terms_found raw.now self.old declaration) self.new result }
        ensures absent { slice_get raw.now.order number ≡ None → IsOk result × (self.new ≡ self.old) }
    {
        let alloc = self.alloc;
        match at(raw.order.as_slice(), number as usize) {
            Some(declaration) => {
                take_declaration(alloc, &mut self.program, &mut self.notes, raw, *declaration)
            }
            None => Ok(()),
        }
    }

    /// The program of the declarations that were taken, with these names. It takes no memory.
    pub fn finish(self, names: Names) -> Program
        ensures { result ≡ record self { names = names } }
    {
        let Checking {
            alloc: _,
            mut program,
            notes: _,
        } = self;
        program.names = names;
        program
    }
}
