//! Lemmas.
ghost use Rattle.std.specs.Prelude.{◌≡◌, ◌<◌, ◌^◌, length, OnErr, OnOk};
ghost use Rattle.px_types.specs.Answers.{Answers};
ghost use Rattle.px_types.specs.Checkings.{AnswersAs, AreFew, AreNotes, Takes, heading_of};
ghost use Rattle.px_types.specs.Declarations.{with_lemma};
ghost use Rattle.px_types.specs.Envs.{env_of};
ghost use Rattle.px_types.specs.NextOutcome.{equation_found, equations_found, is_few, lemma_heading_found, variables_found};
ghost use Rattle.px_types.specs.Outcomes.{each};

use crate::ends::{TypeEnd, TypeKind};
use crate::env::{Env, Stand};
use crate::lists::take_last;
use crate::signatures::{check_assumed, type_fn_types};
use crate::terms::{type_part, type_term};
use crate::typed::Typed;
use crate::types::{need, type_tys};
use px_terms::limits::{CLAUSE_VARIABLES, PREMISES};
use px_terms::{
    Declared, Equation, EquationList, FnType, Lemma, NoMemory, Program, PropSet, RawEquation,
    RawLemma, Ty,
};
use sqlite_items::Items;
use std::alloc::Global;

/// The types of a lemma's function variables and of its data variables.
#[derive(Drop)]
pub(crate) struct Variables {
    pub funs: Items<FnType>,
    pub vars: Items<Ty>,
}

/// Nothing, where the next lemma has few enough variables and premises, its types are right, and the properties that it
/// assumes fit; else its first fault. It takes memory.
pub(crate) fn check_variables(
    alloc: Global,
    program: &Program,
    raw: &RawLemma,
) -> Result<(), TypeEnd>
    ensures { Answers (variables_found program.now raw.now) result }
{
    need(has_few(raw), TypeKind::Oversize, raw.at)?;
    let variables = type_variables(alloc, program, raw)?;
    check_assumed(program, variables.funs.as_slice(), raw.funs.as_slice())
}

/// Puts the next lemma, whose variables are right, behind those of the program and behind the obligations; or answers the
/// first fault of its equations, and the program is then as before. It takes memory.
pub(crate) fn take_lemma(
    alloc: Global,
    program: &mut Program,
    notes: &Items<PropSet>,
    raw: &RawLemma,
) -> Result<(), TypeEnd>
    requires few { AreFew program.old }
    requires notes { AreNotes program.old.declared notes.now }
    ensures notes { AreNotes program.new.declared notes.now }
    ensures same { OnErr result (program.new ≡ program.old) }
    ensures answers { Takes (equations_found program.old raw.now) program.new result }
{
    let lemma = type_lemma(alloc, program, notes, raw)?;
    push_lemma(program, lemma)?;
    Ok(())
}

/// Puts a lemma behind those of the program, and behind the obligations. Without memory the program is unchanged.
fn push_lemma(program: &mut Program, lemma: Lemma) -> Result<(), NoMemory>
    requires { length program.old.lemmas < 2 ^ 32 }
    ensures ok { OnOk result (program.new ≡ with_lemma program.old lemma) }
    ensures err { OnErr result (program.new ≡ program.old) }
{
    let number = program.lemmas.len() as u32;
    program.declared.push(Declared::Lemma { lemma: number })?;
    if let Err(_end) = program.lemmas.push(lemma) {
        take_last(&mut program.declared);
        return Err(NoMemory);
    }
    Ok(())
}

/// The next lemma, whose variables are right, or the first fault of its equations. It takes memory.
fn type_lemma(
    alloc: Global,
    program: &Program,
    notes: &Items<PropSet>,
    raw: &RawLemma,
) -> Result<Lemma, TypeEnd>
    requires few { AreFew program.now }
    requires notes { AreNotes program.now.declared notes.now }
    ensures { AnswersAs (with_lemma program.now) (equations_found program.now raw.now) result }
{
    let Variables { funs, vars } = type_variables(alloc, program, raw)?;
    let env = Env {
        alloc,
        program,
        place: Stand::Behind(program.declared.len() as u32),
        tparams: raw.tparams,
        funs: &funs,
        vars: &vars,
        known: notes,
    };
    let premises = type_equations(&env, &raw.premises)?;
    let conclusion = type_equation(&env, &raw.conclusion)?;
    Ok(Lemma {
        tparams: raw.tparams,
        funs,
        vars,
        premises,
        conclusion,
    })
}

/// The types of a lemma's variables, or their first fault. It takes memory.
fn type_variables(alloc: Global, program: &Program, raw: &RawLemma) -> Result<Variables, TypeEnd>
    ensures { AnswersAs heading_of (lemma_heading_found program.now raw.now) result }
{
    let funs = type_fn_types(alloc, program, raw.tparams, &raw.funs)?;
    let vars = type_tys(alloc, program, raw.tparams, &raw.vars)?;
    Ok(Variables { funs, vars })
}

/// Whether the lemma has few enough variables and premises. It takes no memory.
#[tactic(auto, unfolding(crate::specs::NextOutcome::is_few))]
fn has_few(raw: &RawLemma) -> bool
    ensures { result ≡ is_few raw.now }
{
    raw.vars.len() <= CLAUSE_VARIABLES && raw.premises.len() <= PREMISES
}

/// The equations of written ones, or their first fault. It takes memory.
fn type_equations(env: &Env<'_>, raws: &Items<RawEquation>) -> Result<EquationList, TypeEnd>
    ensures { Answers (each (equation_found (env_of env.now)) raws.now) result }
{
    let mut equations = EquationList::new(env.alloc);
    for raw in raws.as_slice() {
        equations.push(type_equation(env, raw)?)?;
    }
    Ok(equations)
}

/// The equation of a written one, or its first fault: the right side should have the left one's type. It takes memory.
fn type_equation(env: &Env<'_>, raw: &RawEquation) -> Result<Equation, TypeEnd>
    ensures { Answers (equation_found (env_of env.now) raw.now) result }
{
    let mut bound = Items::new(env.alloc);
    let Typed { term, ty } = type_term(env, &raw.left, &mut bound)?;
    let right = type_part(env, &raw.right, &ty, &mut bound)?;
    Ok(Equation { left: term, right })
}
