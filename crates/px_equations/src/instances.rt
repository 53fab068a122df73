//! Instances of clauses.

ghost use Rattle.std.specs.Prelude.{◌≡◌, ◌↔◌, [], IsTrue, IfOk, OnOk, IsOkUnless, Err};
ghost use Rattle.px_terms.specs.Types.{ty_instance, tys_instance};
ghost use Rattle.px_terms.specs.Typing.{HasType, HaveTypes, anywhere};
ghost use Rattle.px_terms.specs.Noting.{equations_instance};
ghost use Rattle.px_types.specs.TypeOf.{HasConstructors};
ghost use Rattle.px_equations.specs.Filled.{Fits};

use crate::alike::becomes;
use crate::ends::InstanceEnd;
use crate::formed::are_types;
use crate::functions::are_open;
use crate::obligations::Obligations;
use px_terms::{
    Clause, Context, Equation, EquationList, NoMemory, Program, Sigma, Term, Ty, instance,
};
use px_types::{NotTyped, type_of, typed_have_constructors};
use std::alloc::Global;

/// What is put into which clause, and the variables that are in scope there.
#[derive(Clone, Copy)]
pub struct Filling<'a> {
    /// The variables in scope.
    pub context: &'a Context,
    /// The clause that is filled.
    pub clause: &'a Clause,
    /// The types, functions and terms that are put in for the clause's variables.
    pub sigma: &'a Sigma,
}

/// A clause with types, functions and terms put in: the premises that are to be shown, and the alternatives.
#[derive(Drop)]
pub struct ClauseInstance {
    /// The premises that are to be shown, in the clause's order.
    pub premises: EquationList,
    /// The alternatives, in the clause's order.
    pub alternatives: EquationList,
}

/// Whether what is put in fits the clause where it is open to the obligation of this number. It takes memory: the type of one
/// term at a time.
pub fn fits_clause(
    alloc: Global,
    all: &Obligations<'_>,
    number: u32,
    filling: &Filling<'_>,
) -> Result<bool, NoMemory>
    ensures { IfOk result (λ fits. IsTrue fits ↔ Fits all.now number filling.now) }
{
    typed_have_constructors();
    let program = all.checked().program();
    if filling.sigma.types.len() != filling.clause.tparams as usize {
        return Ok(false);
    }
    if !are_types(&filling.sigma.types, program, filling.context.tparams) {
        return Ok(false);
    }
    if !are_open(alloc, all, number, filling) {
        return Ok(false);
    }
    terms_have(alloc, program, filling)
}

/// The clause with types, functions and terms put in. IllTyped exactly where they do not fit it. It takes memory.
pub fn instance_of(
    alloc: Global,
    all: &Obligations<'_>,
    number: u32,
    filling: &Filling<'_>,
) -> Result<ClauseInstance, InstanceEnd>
    ensures premises { IfOk result (λ made. made.premises ≡ equations_instance filling.now.sigma.now filling.now.clause.now.premises) }
    ensures alternatives { IfOk result (λ made. made.alternatives ≡ equations_instance filling.now.sigma.now filling.now.clause.now.alternatives) }
    ensures fits { OnOk result (Fits all.now number filling.now) }
    ensures ill_typed { result ≡ Err InstanceEnd.IllTyped → ¬ Fits all.now number filling.now }
    ensures only { Fits all.now number filling.now → IsOkUnless result InstanceEnd.NoMemory }
{
    if !fits_clause(alloc, all, number, filling)? {
        return Err(InstanceEnd::IllTyped);
    }
    let premises = equations(alloc, filling.clause.premises.as_slice(), filling.sigma)?;
    let alternatives = equations(alloc, filling.clause.alternatives.as_slice(), filling.sigma)?;
    Ok(ClauseInstance {
        premises,
        alternatives,
    })
}

/// The equations with types, functions and terms put in. It takes memory.
fn equations(alloc: Global, of: &[Equation], sigma: &Sigma) -> Result<EquationList, NoMemory>
    ensures { IfOk result (λ made. made ≡ equations_instance sigma.now of.now) }
{
    let mut made = EquationList::new(alloc);
    for equation in of {
        made.push(Equation {
            left: instance(alloc, &equation.left, sigma)?,
            right: instance(alloc, &equation.right, sigma)?,
        })?;
    }
    Ok(made)
}

/// Whether each term has the type of the clause's variable at its place, with the types put in, and there are as many of both.
/// It takes memory: the type of one term at a time.
fn terms_have(alloc: Global, program: &Program, filling: &Filling<'_>) -> Result<bool, NoMemory>
    requires { HasConstructors program.now }
    ensures { IfOk result (λ have. IsTrue have ↔ HaveTypes program.now anywhere filling.now.context.now [] filling.now.sigma.now.terms (tys_instance filling.now.sigma.now.types filling.now.clause.now.vars)) }
{
    let terms = filling.sigma.terms.as_slice();
    let vars = filling.clause.vars.as_slice();
    if terms.len() != vars.len() {
        return Ok(false);
    }
    for index in 0..terms.len() {
        let has = term_has(alloc, program, filling, &terms[index], &vars[index])?;
        if !has {
            return Ok(false);
        }
    }
    Ok(true)
}

/// Whether the term has the type with the types of the filling put in. It takes memory: the type of the term.
fn term_has(
    alloc: Global,
    program: &Program,
    filling: &Filling<'_>,
    term: &Term,
    ty: &Ty,
) -> Result<bool, NoMemory>
    requires { HasConstructors program.now }
    ensures { IfOk result (λ has. IsTrue has ↔ HasType program.now anywhere filling.now.context.now term.now (ty_instance filling.now.sigma.now.types ty.now)) }
{
    match type_of(alloc, program, filling.context, term) {
        Ok(found) => Ok(becomes(&found, ty, &filling.sigma.types)),
        Err(NotTyped::IllTyped) => Ok(false),
        Err(NotTyped::NoMemory) => Err(NoMemory),
    }
}
