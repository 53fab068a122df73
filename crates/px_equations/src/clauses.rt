//! The clauses of the declared obligations.

ghost use Rattle.std.specs.Prelude.{◌≡◌, [], IfOk, IsOk, length};
ghost use Rattle.px_terms.specs.TypedPrograms.{IsTyped};
ghost use Rattle.px_terms.specs.Numbered.{HasNumbers};
ghost use Rattle.px_terms.specs.Obligations as obligations;
ghost use Rattle.px_props.specs.Signatures.{IsCounted};
ghost use Rattle.px_equations.specs.Listed.{AreListed, HasClause, IsDeclaredCounted, IsOnlyDeclared};

use px_props::{ClauseEnd, clause_of};
use px_terms::{
    Clause, Declared, EquationList, Head, Lemma, NoMemory, Program, Prop, copy_equation,
    copy_equations, copy_fn_types, copy_tys,
};
use sqlite_items::{Items, at};
use std::alloc::Global;

/// The clause of each obligation of a typed program, in order. It takes memory.
pub(crate) fn clauses_of(alloc: Global, program: &Program) -> Result<Items<Clause>, NoMemory>
    requires typed { IsTyped program.now }
    requires numbered { HasNumbers program.now }
    ensures { IfOk result (λ clauses. AreListed program.now clauses (length program.now.declared)) }
{
    let mut clauses = Items::new(alloc);
    let declared = program.declared.as_slice();
    for number in 0..declared.len() {
        clauses.push(declared_clause(alloc, program, declared[number])?)?;
    }
    Ok(clauses)
}

/// The one clause of a declared obligation: the lemma is there, and the property fits the definition. It takes memory.
fn declared_clause(alloc: Global, program: &Program, declared: Declared) -> Result<Clause, NoMemory>
    requires has { HasClause program.now declared }
    requires counted { IsDeclaredCounted program.now declared }
    ensures { IfOk result (IsOnlyDeclared program.now declared) }
{
    match declared {
        Declared::Property { def, prop } => property_clause(alloc, program, def, prop),
        Declared::Lemma { lemma } => match at(program.lemmas.as_slice(), lemma as usize) {
            Some(said) => said_by(alloc, said),
            None => unreachable!(),
        },
    }
}

/// The clause of a property that fits the definition. It takes memory.
fn property_clause(
    alloc: Global,
    program: &Program,
    number: u32,
    prop: Prop,
) -> Result<Clause, NoMemory>
    requires has { HasClause program.now (Declared.Property number prop) }
    requires counted { IsCounted program.now [] (Head.Def number) }
    ensures { IfOk result (IsOnlyDeclared program.now (Declared.Property number prop)) }
{
    match clause_of(alloc, program, Head::Def(number), &[], prop) {
        Ok(clause) => Ok(clause),
        Err(ClauseEnd::Shape) => unreachable!(),
        Err(ClauseEnd::NoMemory) => Err(NoMemory),
    }
}

/// What a lemma says. It takes memory.
fn said_by(alloc: Global, lemma: &Lemma) -> Result<Clause, NoMemory>
    ensures { IfOk result (λ clause. clause ≡ obligations.lemma_clause lemma.now) }
{
    let mut alternatives = EquationList::new(alloc);
    alternatives.push(copy_equation(alloc, &lemma.conclusion)?)?;
    Ok(Clause {
        tparams: lemma.tparams,
        funs: copy_fn_types(alloc, lemma.funs.as_slice())?,
        vars: copy_tys(alloc, lemma.vars.as_slice())?,
        premises: copy_equations(alloc, lemma.premises.as_slice())?,
        alternatives,
    })
}
