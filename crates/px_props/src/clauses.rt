//! The clause of a property of a function.

ghost use Rattle.std.specs.Prelude.{◌≡◌, ◌↔◌, ◌++◌, ◌+◌, ◌≤◌, [], IsTrue, IfOk, MatchResult, Err, length, replicate};
ghost use Rattle.px_terms.specs.Head.{Head as Called};
ghost use Rattle.px_terms.specs.declared.clause.Clause.{Clause as Said};
ghost use Rattle.px_terms.specs.Clauses.{HasResult, IsClauseOf, clause_for, says};
ghost use Rattle.px_terms.specs.TypedPrograms.{Fits};
ghost use Rattle.px_props.specs.Signatures.{IsCounted, IsNumbered, subject_of, compared};
ghost use Rattle.px_props.specs.Answered.{IsAnswered};
ghost use Rattle.px_props.specs.declared.clauses.ClauseEnd.TheVariants as ends;

use crate::functions::{Function, definition, gives_asked, variable};
use crate::table::{Asked, alternatives_of, asked_by, named_by, premises_of};
use crate::terms::equations;
use px_terms::limits::CLAUSE_VARIABLES;
use px_terms::{
    Clause, FnType, Head, NoMemory, Program, Prop, Ty, copy_fn_types, copy_ty, copy_tys,
};
use sqlite_items::Items;
use std::alloc::Global;

/// Why there is no clause.
#[derive(Clone, Copy, Debug, PartialEq, Eq)]
pub enum ClauseEnd {
    /// The function's type does not fit the property.
    Shape,
    /// No memory was left.
    NoMemory,
}

impl From<NoMemory> for ClauseEnd {
    ghost from_gives = { λ _ end. end ≡ ends.NoMemory };

    fn from(_end: NoMemory) -> ClauseEnd {
        ClauseEnd::NoMemory
    }
}

/// The clause of a property of what is called, where `funs` are the types of the function variables in scope. Shape exactly
/// where it has none: there is no such function, its last two parameters are not of one type, or it gives another type
/// than the property asks. It takes memory.
pub fn clause_of(
    alloc: Global,
    program: &Program,
    head: Head,
    funs: &[FnType],
    prop: Prop,
) -> Result<Clause, ClauseEnd>
    requires { IsCounted program.now funs.now head }
    ensures ok { IfOk result (IsClauseOf program.now funs.now head prop) }
    ensures shape { result ≡ Err ClauseEnd.Shape → (clause : Said) → ¬ IsClauseOf program.now funs.now head prop clause }
    // Where there is a clause, it is the answer, besides want of memory.
    ensures only { (clause : Said) → IsClauseOf program.now funs.now head prop clause → MatchResult result (λ found. found ≡ clause) (λ end. end ≡ ClauseEnd.NoMemory) }
{
    match head {
        Head::Def(number) => match definition(program, number) {
            Some(function) => clause(alloc, &function, prop),
            None => Err(ClauseEnd::Shape),
        },
        Head::Wle | Head::Weq => comparison_clause(alloc, head, prop),
        Head::FnVar(number) => match variable(funs, number) {
            Some(function) => clause(alloc, &function, prop),
            None => Err(ClauseEnd::Shape),
        },
    }
}

/// The clause of a property of a comparison of two words. Shape exactly where the property asks that they give a word.
fn comparison_clause(alloc: Global, head: Head, prop: Prop) -> Result<Clause, ClauseEnd>
    ensures { IsAnswered (compared head) 0 [] prop result }
{
    let word = Ty::Word;
    let truth = Ty::Con {
        datatype: 0,
        args: Items::new(alloc),
    };
    let function = Function {
        head,
        tparams: 0,
        funs: &[],
        leading: &[],
        last: &word,
        gives: &truth,
    };
    clause(alloc, &function, prop)
}

/// The clause of a property of a function. Shape exactly where it gives another type than the property asks.
fn clause(alloc: Global, function: &Function<'_>, prop: Prop) -> Result<Clause, ClauseEnd>
    requires { IsNumbered function.now }
    ensures { IsAnswered (subject_of function.now) function.now.tparams function.now.funs.now prop result }
{
    if !gives_asked(function, prop) {
        return Err(ClauseEnd::Shape);
    }
    Ok(said_of(alloc, function, prop)?)
}

/// What the property says of the function.
fn said_of(alloc: Global, function: &Function<'_>, prop: Prop) -> Result<Clause, NoMemory>
    requires { IsNumbered function.now }
    ensures { IfOk result (λ clause. clause ≡ clause_for (subject_of function.now) prop function.now.tparams function.now.funs.now) }
{
    Ok(Clause {
        tparams: function.tparams,
        funs: copy_fn_types(alloc, function.funs)?,
        vars: variable_types(alloc, function, named_by(prop))?,
        premises: equations(alloc, function, premises_of(prop))?,
        alternatives: equations(alloc, function, alternatives_of(prop))?,
    })
}

/// The types of the leading variables, and of so many more.
fn variable_types(alloc: Global, function: &Function<'_>, named: u32) -> Result<Items<Ty>, NoMemory>
    ensures { IfOk result (λ made. made ≡ function.now.leading.now ++ replicate named function.now.last.now) }
{
    let mut made = copy_tys(alloc, function.leading)?;
    for _number in 0..named {
        made.push(copy_ty(alloc, function.last)?)?;
    }
    Ok(made)
}

/// Whether the property fits the type of what is called, and its clause has at most CLAUSE_VARIABLES data variables; `funs`
/// are the types of the function variables in scope. It takes no memory.
pub fn fits(program: &Program, head: Head, funs: &[FnType], prop: Prop) -> bool
    ensures { IsTrue result ↔ Fits program.now funs.now head prop }
{
    match head {
        Head::Def(number) => match definition(program, number) {
            Some(function) => has_few(&function, prop),
            None => false,
        },
        Head::Wle | Head::Weq => fits_comparison(prop),
        Head::FnVar(number) => match variable(funs, number) {
            Some(function) => has_few(&function, prop),
            None => false,
        },
    }
}

/// Whether the property fits the function, and its clause has few enough variables.
fn has_few(function: &Function<'_>, prop: Prop) -> bool
    ensures { let s = subject_of function.now in IsTrue result ↔ (HasResult s prop × (length s.leading + (says s prop).named ≤ CLAUSE_VARIABLES)) }
{
    gives_asked(function, prop)
        && function.leading.len() + named_by(prop) as usize <= CLAUSE_VARIABLES
}

/// Whether the property fits a comparison of two words.
fn fits_comparison(prop: Prop) -> bool
    ensures { (h : Called) → (IsTrue result ↔ HasResult (compared h) prop) }
{
    match asked_by(prop) {
        Asked::Any => true,
        Asked::Last => false,
        Asked::Truth => true,
    }
}
