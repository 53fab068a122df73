//! Definitions, claims, lemmas and replicas.
ghost use Rattle.std.specs.Prelude.{◌≡◌, ◌<◌, ◌≤◌, ◌^◌, None, length, IfOk, IfErr, OnOk};
ghost use Rattle.std.specs.List.{flat_map};
ghost use Rattle.px_parser.specs.declared.surface.Item.TheVariants as items;
ghost use Rattle.px_scope.specs.Declaring.{after, with_lower, functions_in, function_count, claimed_of as claimed_props};
ghost use Rattle.px_scope.specs.ItemUses.{heading_uses, equation_uses, definition_uses, claim_uses, lemma_uses, replica_uses};
ghost use Rattle.px_scope.specs.Programs.{IsEquation, AreEquations, IsDefinition, IsClaim, IsLemma, IsReplica};
ghost use Rattle.px_scope.specs.Rules.{new_lower_fault};
ghost use Rattle.px_scope.specs.Answers.{Resolves, Finds, IsHeading};

use crate::ends::{ScopeEnd, ScopeKind};
use crate::expressions::{resolve_from, resolve_term};
use crate::functions::{resolve_functions, resolve_merge};
use crate::globals::{Globals, Meaning};
use crate::locals::Locals;
use crate::lookups::{fault, find_claimed};
use crate::parameters::{Parameters, add_type_parameters, resolve_parameters};
use crate::properties::{claim, copy_claimed, copy_props};
use crate::types::resolve_type;
use px_base::{Prop, RawClaim, RawDef, RawEquation, RawLemma, RawReplica};
use px_parser::{Item, Name, SClaim, SDef, SEquation, SLemma, SParam, SParamKind, SReplica};
use sqlite_items::{Items, at};
use std::alloc::Global;

/// What is local after the parameters of a definition or a lemma, and their types.
#[derive(Drop)]
pub(crate) struct Heading {
    pub(crate) locals: Locals,
    pub(crate) params: Parameters,
}

/// The written definition that one is, which is declared then.
pub(crate) fn resolve_definition(
    alloc: Global,
    text: &[Item],
    globals: &mut Globals,
    definition: &SDef,
) -> Result<RawDef, ScopeEnd>
    requires number { length globals.old.claimed < 2 ^ 32 }
    requires tparams { length definition.now.tparams < 2 ^ 32 }
    ensures { Resolves (definition_uses text.now globals.old definition.now) (λ raw. IsDefinition globals.old definition.now raw × (globals.new ≡ after globals.old (items.Definition definition.now))) result }
{
    check_new(globals, &definition.name)?;
    let Heading { mut locals, params } = resolve_heading(
        alloc,
        text,
        globals,
        definition.tparams.as_slice(),
        definition.params.as_slice(),
    )?;
    let result = resolve_type(alloc, text, globals, &locals.types, &definition.result)?;
    let mut claimed = Items::new(alloc);
    claim(&mut claimed, definition.props.as_slice())?;
    let number = globals.claimed.len() as u32;
    let functions = count_functions(definition.params.as_slice());
    declare(
        alloc,
        globals,
        &definition.name,
        Meaning::Definition { number, functions },
    )?;
    locals.own_definition = Some(number);
    let body = resolve_term(alloc, text, globals, &mut locals, &definition.body)?;
    globals.claimed.push(claimed)?;
    Ok(RawDef {
        at: definition.name.at,
        tparams: definition.tparams.len() as u32,
        funs: params.funs,
        params: params.values,
        result,
        body,
        props: copy_props(alloc, definition.props.as_slice())?,
    })
}

/// The name is that of no definition, lemma, replica or built-in.
fn check_new(globals: &Globals, name: &Name) -> Result<(), ScopeEnd>
    ensures { Finds name.now.at (new_lower_fault globals.now name.now.text) (λ _. Unit {0}) result }
{
    if globals.lowers.has(name.text.as_str()) {
        return Err(fault(ScopeKind::Repeated, name.at));
    }
    Ok(())
}

/// Declares a name with a small letter, which is a new one.
fn declare(
    alloc: Global,
    globals: &mut Globals,
    name: &Name,
    meaning: Meaning,
) -> Result<(), ScopeEnd>
    requires { new_lower_fault globals.old name.now.text ≡ None }
    ensures declared { OnOk result (globals.new ≡ with_lower globals.old name.now meaning) }
    ensures memory { IfErr result (λ end. end ≡ ScopeEnd.NoMemory) }
{
    globals.lowers.add(alloc, name.text.as_str())?;
    globals.meanings.push(meaning)?;
    Ok(())
}

/// What is local after these type parameters and parameters, and the types of these.
fn resolve_heading(
    alloc: Global,
    text: &[Item],
    globals: &Globals,
    tparams: &[Name],
    params: &[SParam],
) -> Result<Heading, ScopeEnd>
    ensures { Resolves (heading_uses text.now globals.now tparams.now params.now) (IsHeading globals.now tparams.now params.now) result }
{
    let mut locals = Locals::new(alloc);
    add_type_parameters(alloc, globals, &mut locals.types, tparams)?;
    let params = resolve_parameters(alloc, text, globals, &mut locals, params)?;
    Ok(Heading { locals, params })
}

/// How many parameters are functions.
fn count_functions(params: &[SParam]) -> usize
    ensures { result ≡ function_count params.now }
{
    let mut count: usize = 0;
    for param in params {
        count += functions_of(&param.kind);
    }
    count
}

/// 1 for a function, and 0 for a value.
fn functions_of(kind: &SParamKind) -> usize
    ensures is { result ≡ functions_in kind.now }
    ensures most { result ≤ 1 }
{
    match kind {
        SParamKind::Function(_) => 1,
        SParamKind::Value(_) => 0,
    }
}

/// The written claim that one is; its properties are claimed then.
pub(crate) fn resolve_claim(
    alloc: Global,
    text: &[Item],
    globals: &mut Globals,
    written: &SClaim,
) -> Result<RawClaim, ScopeEnd>
    ensures { Resolves (claim_uses text.now globals.old written.now) (λ raw. IsClaim globals.old written.now raw × (globals.new ≡ after globals.old (items.Claim written.now))) result }
{
    let def = find_claimed(text, globals, &written.name)?;
    let mut claimed = claimed_of(alloc, globals, def)?;
    claim(&mut claimed, written.props.as_slice())?;
    if (def as usize) < globals.claimed.len() {
        globals.claimed.set(def as usize, claimed);
    }
    Ok(RawClaim {
        at: written.at,
        def,
        props: copy_props(alloc, written.props.as_slice())?,
    })
}

/// A copy of the properties that are claimed of a definition.
fn claimed_of(alloc: Global, globals: &Globals, def: u32) -> Result<Items<Prop>, ScopeEnd>
    ensures is { IfOk result (λ claimed. claimed ≡ claimed_props globals.now def) }
    ensures memory { IfErr result (λ end. end ≡ ScopeEnd.NoMemory) }
{
    match at(globals.claimed.as_slice(), def as usize) {
        Some(claimed) => copy_claimed(alloc, claimed.as_slice()),
        None => Ok(Items::new(alloc)),
    }
}

/// The written lemma that one is, which is declared then.
pub(crate) fn resolve_lemma(
    alloc: Global,
    text: &[Item],
    globals: &mut Globals,
    lemma: &SLemma,
) -> Result<RawLemma, ScopeEnd>
    requires tparams { length lemma.now.tparams < 2 ^ 32 }
    requires equations { 0 < length lemma.now.equations }
    ensures { Resolves (lemma_uses text.now globals.old lemma.now) (λ raw. IsLemma globals.old lemma.now raw × (globals.new ≡ after globals.old (items.Lemma lemma.now))) result }
{
    check_new(globals, &lemma.name)?;
    let Heading { mut locals, params } = resolve_heading(
        alloc,
        text,
        globals,
        lemma.tparams.as_slice(),
        lemma.params.as_slice(),
    )?;
    declare(alloc, globals, &lemma.name, Meaning::Lemma)?;
    let equations = lemma.equations.as_slice();
    let last = equations.len() - 1;
    let premises = resolve_equations(alloc, text, globals, &mut locals, &equations[..last])?;
    let conclusion = resolve_equation(alloc, text, globals, &mut locals, &equations[last])?;
    Ok(RawLemma {
        at: lemma.name.at,
        tparams: lemma.tparams.len() as u32,
        funs: params.funs,
        vars: params.values,
        premises,
        conclusion,
    })
}

/// The written equations that equations are.
fn resolve_equations(
    alloc: Global,
    text: &[Item],
    globals: &Globals,
    locals: &mut Locals,
    equations: &[SEquation],
) -> Result<Items<RawEquation>, ScopeEnd>
    ensures resolves { Resolves (flat_map (equation_uses text.now globals.now locals.old) equations.now) (AreEquations globals.now locals.old equations.now) result }
    ensures locals { OnOk result (locals.new ≡ locals.old) }
{
    let mut resolved = Items::new(alloc);
    for equation in equations {
        resolved.push(resolve_equation(alloc, text, globals, locals, equation)?)?;
    }
    Ok(resolved)
}

/// The written equation that one is.
fn resolve_equation(
    alloc: Global,
    text: &[Item],
    globals: &Globals,
    locals: &mut Locals,
    equation: &SEquation,
) -> Result<RawEquation, ScopeEnd>
    ensures resolves { Resolves (equation_uses text.now globals.now locals.old equation.now) (IsEquation globals.now locals.old equation.now) result }
    ensures locals { OnOk result (locals.new ≡ locals.old) }
{
    let left = resolve_term(alloc, text, globals, locals, &equation.left)?;
    let right = resolve_term(alloc, text, globals, locals, &equation.right)?;
    Ok(RawEquation { left, right })
}

/// The written replica that one is, which is declared then.
pub(crate) fn resolve_replica(
    alloc: Global,
    text: &[Item],
    globals: &mut Globals,
    replica: &SReplica,
) -> Result<RawReplica, ScopeEnd>
    ensures { Resolves (replica_uses text.now globals.old replica.now) (λ raw. IsReplica globals.old replica.now raw × (globals.new ≡ after globals.old (items.Replica replica.now))) result }
{
    check_new(globals, &replica.name)?;
    let locals = Locals::new(alloc);
    let state = resolve_type(alloc, text, globals, &locals.types, &replica.state)?;
    declare(alloc, globals, &replica.name, Meaning::Replica)?;
    let from = resolve_from(alloc, text, globals, &locals, &replica.from)?;
    let merge = resolve_merge(alloc, text, globals, &locals, &replica.merge)?;
    let funs = resolve_functions(alloc, text, globals, &locals, replica.funs.as_slice())?;
    Ok(RawReplica {
        at: replica.name.at,
        state,
        from,
        merge,
        funs,
    })
}
