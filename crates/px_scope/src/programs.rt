//! Programs.
ghost use Rattle.std.specs.Prelude.{◌≡◌, ◌≤◌, IfOk, IfErr, Ok, Err};
ghost use Rattle.px_base.specs.declared.raw.RawProgram.{RawProgram as AnyProgram};
ghost use Rattle.px_scope.specs.declared.ends.ScopeEnd.TheVariants as ends;
ghost use Rattle.px_base.specs.declared.limits.TheConstants.{PROGRAM_BYTES};
ghost use Rattle.px_base.specs.Fitting.{IsFitting, raw_bool};
ghost use Rattle.px_base.specs.Lawful.{IsLawful};
ghost use Rattle.px_parser.specs.declared.surface.Item.TheVariants as items;
ghost use Rattle.px_parser.specs.Sizes.{surface_size, IsWithinNesting};
ghost use Rattle.px_parser.specs.Filled.{IsFilled};
ghost use Rattle.px_parser.specs.Named.{AreNamed};
ghost use Rattle.px_scope.specs.Standing.{built_in};
ghost use Rattle.px_scope.specs.Uses.{Broken};
ghost use Rattle.px_scope.specs.Declaring.{constructor_names, after};
ghost use Rattle.px_scope.specs.ItemUses.{item_uses, text_uses};
ghost use Rattle.px_scope.specs.Programs.{start, IsNext, AreNext, IsNumbering, IsFault};
ghost use Rattle.px_scope.specs.Small.{IsSmallItem, IsSmall, HasRoom};
ghost use Rattle.px_scope.specs.Answers.{Resolves, IsEnd, IsUnlessNoMemory};

use crate::data::resolve_data;
use crate::declarations::{resolve_claim, resolve_definition, resolve_lemma, resolve_replica};
use crate::ends::ScopeEnd;
use crate::globals::Globals;
use px_base::{Decl, Names, RawCon, RawData, RawProgram, Text};
use px_parser::{Item, SClaim, SCon, SData, SDef, SLemma, SReplica, Surface};
use sqlite_items::Items;
use std::alloc::Global;

/// The numbered program of a surface: each name is the number of what it stands for. A fault exactly where a name breaks
/// a rule of scope: the first by place, with the first rule that it breaks. Its calls nest as deep as the types and
/// expressions of the surface, and its time is linear in it.
pub fn resolve(alloc: Global, surface: &Surface) -> Result<RawProgram, ScopeEnd>
    requires small { surface_size surface.now ≤ PROGRAM_BYTES }
    requires filled { IsFilled surface.now }
    requires nests { IsWithinNesting surface.now }
    requires named { AreNamed surface.now }
    ensures ok { IfOk result (IsNumbering surface.now) }
    ensures fault { IfErr result (IsEnd surface.now) }

    // What is answered is as the check of types asks for it.
    ensures fitting { IfOk result IsFitting }

    // `Bool` comes first, no two names of a kind are equal, and each has the form of its kind.
    ensures lawful { IfOk result (λ program. IsLawful program.names) }

    // Unless memory runs out, the one numbered program is answered, and so is the one fault.
    ensures each_program { (P : AnyProgram) → IsNumbering surface.now P → IsUnlessNoMemory (Ok P) result }
    ensures each_fault { (fault : Broken) → IsFault surface.now fault → IsUnlessNoMemory (Err (ends.Fault fault.kind fault.at)) result }
{
    resolve_items(alloc, surface.items.as_slice())
}

/// The numbered program of these declarations.
fn resolve_items(alloc: Global, text: &[Item]) -> Result<RawProgram, ScopeEnd>
    requires { IsSmall text.now }
    ensures { Resolves (text_uses text.now) (AreNext built_in start text.now) result }
{
    let mut globals = Globals::new(alloc)?;
    let mut program = start_program(alloc)?;
    for item in text {
        resolve_item(alloc, text, &mut globals, &mut program, item)?;
    }
    Ok(program)
}

/// The program of no declarations.
fn start_program(alloc: Global) -> Result<RawProgram, ScopeEnd>
    ensures is { IfOk result (λ program. program ≡ start) }
    ensures memory { IfErr result (λ end. end ≡ ScopeEnd.NoMemory) }
{
    let mut datatypes = Items::new(alloc);
    datatypes.push(bool_data(alloc)?)?;
    Ok(RawProgram {
        order: Items::new(alloc),
        datatypes,
        defs: Items::new(alloc),
        claims: Items::new(alloc),
        lemmas: Items::new(alloc),
        replicas: Items::new(alloc),
        names: start_names(alloc)?,
    })
}

/// The declaration of `Bool`.
fn bool_data(alloc: Global) -> Result<RawData, ScopeEnd>
    ensures is { IfOk result (λ datatype. datatype ≡ raw_bool) }
    ensures memory { IfErr result (λ end. end ≡ ScopeEnd.NoMemory) }
{
    let mut cons = Items::new(alloc);
    cons.push(RawCon {
        at: 0,
        fields: Items::new(alloc),
    })?;
    cons.push(RawCon {
        at: 0,
        fields: Items::new(alloc),
    })?;
    Ok(RawData {
        at: 0,
        tparams: 0,
        cons,
    })
}

/// The names of `Bool` and its constructors.
fn start_names(alloc: Global) -> Result<Names, ScopeEnd>
    ensures is { IfOk result (λ names. names ≡ start.names) }
    ensures memory { IfErr result (λ end. end ≡ ScopeEnd.NoMemory) }
{
    let mut datatypes = Items::new(alloc);
    datatypes.push(copy_text(alloc, "Bool")?)?;
    let mut truths = Items::new(alloc);
    truths.push(copy_text(alloc, "False")?)?;
    truths.push(copy_text(alloc, "True")?)?;
    let mut cons = Items::new(alloc);
    cons.push(truths)?;
    Ok(Names {
        datatypes,
        cons,
        defs: Items::new(alloc),
        lemmas: Items::new(alloc),
        replicas: Items::new(alloc),
    })
}

/// A copy of a text.
fn copy_text(alloc: Global, text: &str) -> Result<Text, ScopeEnd>
    ensures is { IfOk result (λ copy. copy ≡ text.now) }
    ensures memory { IfErr result (λ end. end ≡ ScopeEnd.NoMemory) }
{
    Ok(Text::new(String::from_str(alloc, text)?))
}

/// The names of constructors.
fn copy_names(alloc: Global, cons: &[SCon]) -> Result<Items<Text>, ScopeEnd>
    ensures is { IfOk result (λ names. names ≡ constructor_names cons.now) }
    ensures memory { IfErr result (λ end. end ≡ ScopeEnd.NoMemory) }
{
    let mut names = Items::new(alloc);
    for con in cons {
        names.push(copy_text(alloc, con.name.text.as_str())?)?;
    }
    Ok(names)
}

/// Adds a declaration to the program, and to what is declared.
fn resolve_item(
    alloc: Global,
    text: &[Item],
    globals: &mut Globals,
    program: &mut RawProgram,
    item: &Item,
) -> Result<(), ScopeEnd>
    requires small { IsSmallItem item.now }
    requires room { HasRoom globals.old program.old }
    ensures { Resolves (item_uses text.now globals.old item.now) (λ _. IsNext globals.old program.old item.now program.new × (globals.new ≡ after globals.old item.now)) result }
{
    match item {
        Item::Datatype(datatype) => add_datatype(alloc, text, globals, program, datatype),
        Item::Definition(definition) => add_definition(alloc, text, globals, program, definition),
        Item::Claim(claim) => add_claim(alloc, text, globals, program, claim),
        Item::Lemma(lemma) => add_lemma(alloc, text, globals, program, lemma),
        Item::Replica(replica) => add_replica(alloc, text, globals, program, replica),
    }
}

/// Adds a datatype to the program, and to what is declared.
fn add_datatype(
    alloc: Global,
    text: &[Item],
    globals: &mut Globals,
    program: &mut RawProgram,
    datatype: &SData,
) -> Result<(), ScopeEnd>
    requires small { IsSmallItem (items.Datatype datatype.now) }
    requires room { HasRoom globals.old program.old }
    ensures { Resolves (item_uses text.now globals.old (items.Datatype datatype.now)) (λ _. IsNext globals.old program.old (items.Datatype datatype.now) program.new × (globals.new ≡ after globals.old (items.Datatype datatype.now))) result }
{
    let raw = resolve_data(alloc, text, globals, datatype)?;
    let number = program.datatypes.len() as u32;
    program.order.push(Decl::Datatype(number))?;
    program.datatypes.push(raw)?;
    let name = copy_text(alloc, datatype.name.text.as_str())?;
    program.names.datatypes.push(name)?;
    let names = copy_names(alloc, datatype.cons.as_slice())?;
    program.names.cons.push(names)?;
    Ok(())
}

/// Adds a definition to the program, and to what is declared.
fn add_definition(
    alloc: Global,
    text: &[Item],
    globals: &mut Globals,
    program: &mut RawProgram,
    definition: &SDef,
) -> Result<(), ScopeEnd>
    requires small { IsSmallItem (items.Definition definition.now) }
    requires room { HasRoom globals.old program.old }
    ensures { Resolves (item_uses text.now globals.old (items.Definition definition.now)) (λ _. IsNext globals.old program.old (items.Definition definition.now) program.new × (globals.new ≡ after globals.old (items.Definition definition.now))) result }
{
    let raw = resolve_definition(alloc, text, globals, definition)?;
    let number = program.defs.len() as u32;
    program.order.push(Decl::Definition(number))?;
    program.defs.push(raw)?;
    let name = copy_text(alloc, definition.name.text.as_str())?;
    program.names.defs.push(name)?;
    Ok(())
}

/// Adds a claim to the program, and to what is declared.
fn add_claim(
    alloc: Global,
    text: &[Item],
    globals: &mut Globals,
    program: &mut RawProgram,
    claim: &SClaim,
) -> Result<(), ScopeEnd>
    requires small { IsSmallItem (items.Claim claim.now) }
    requires room { HasRoom globals.old program.old }
    ensures { Resolves (item_uses text.now globals.old (items.Claim claim.now)) (λ _. IsNext globals.old program.old (items.Claim claim.now) program.new × (globals.new ≡ after globals.old (items.Claim claim.now))) result }
{
    let raw = resolve_claim(alloc, text, globals, claim)?;
    let number = program.claims.len() as u32;
    program.order.push(Decl::Claim(number))?;
    program.claims.push(raw)?;
    Ok(())
}

/// Adds a lemma to the program, and to what is declared.
fn add_lemma(
    alloc: Global,
    text: &[Item],
    globals: &mut Globals,
    program: &mut RawProgram,
    lemma: &SLemma,
) -> Result<(), ScopeEnd>
    requires small { IsSmallItem (items.Lemma lemma.now) }
    requires room { HasRoom globals.old program.old }
    ensures { Resolves (item_uses text.now globals.old (items.Lemma lemma.now)) (λ _. IsNext globals.old program.old (items.Lemma lemma.now) program.new × (globals.new ≡ after globals.old (items.Lemma lemma.now))) result }
{
    let raw = resolve_lemma(alloc, text, globals, lemma)?;
    let number = program.lemmas.len() as u32;
    program.order.push(Decl::Lemma(number))?;
    program.lemmas.push(raw)?;
    let name = copy_text(alloc, lemma.name.text.as_str())?;
    program.names.lemmas.push(name)?;
    Ok(())
}

/// Adds a replica to the program, and to what is declared.
fn add_replica(
    alloc: Global,
    text: &[Item],
    globals: &mut Globals,
    program: &mut RawProgram,
    replica: &SReplica,
) -> Result<(), ScopeEnd>
    requires small { IsSmallItem (items.Replica replica.now) }
    requires room { HasRoom globals.old program.old }
    ensures { Resolves (item_uses text.now globals.old (items.Replica replica.now)) (λ _. IsNext globals.old program.old (items.Replica replica.now) program.new × (globals.new ≡ after globals.old (items.Replica replica.now))) result }
{
    let raw = resolve_replica(alloc, text, globals, replica)?;
    let number = program.replicas.len() as u32;
    program.order.push(Decl::Replica(number))?;
    program.replicas.push(raw)?;
    let name = copy_text(alloc, replica.name.text.as_str())?;
    program.names.replicas.push(name)?;
    Ok(())
}
