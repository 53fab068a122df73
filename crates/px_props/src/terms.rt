//! The terms of clauses.

ghost use Rattle.std.specs.Prelude.{◌≡◌, ◌++◌, ◌∷◌, ◌+◌, ◌<◌, ◌^◌, [], ℕ, IfOk, length, map};
ghost use Rattle.px_terms.specs.Types as types;
ghost use Rattle.px_terms.specs.declared.term.Term.TheVariants as terms;
ghost use Rattle.px_terms.specs.Clauses as clauses;
ghost use Rattle.px_props.specs.Table as table;
ghost use Rattle.px_props.specs.Signatures.{IsNumbered, subject_of};

use crate::functions::Function;
use crate::table::{Name, Side, Sides};
use px_terms::{Equation, EquationList, Fun, Head, NoMemory, Term, Ty};
use sqlite_items::Items;
use std::alloc::Global;

/// The equations that these sides stand for.
pub(crate) fn equations(
    alloc: Global,
    function: &Function<'_>,
    written: &[Sides],
) -> Result<EquationList, NoMemory>
    requires { IsNumbered function.now }
    ensures { IfOk result (λ made. made ≡ map (table.equation_of (subject_of function.now)) written.now) }
{
    let mut made = EquationList::new(alloc);
    for sides in written {
        made.push(Equation {
            left: side(alloc, function, sides.left)?,
            right: side(alloc, function, sides.right)?,
        })?;
    }
    Ok(made)
}

/// The term that a side stands for.
fn side(alloc: Global, function: &Function<'_>, side: Side) -> Result<Term, NoMemory>
    requires { IsNumbered function.now }
    ensures { IfOk result (λ t. t ≡ table.side_term (subject_of function.now) side) }
{
    match side {
        Side::Variable(name) => Ok(variable(function, name)),
        Side::Truth(holds) => Ok(truth(alloc, holds)),
        Side::Once(a, b) => once(alloc, function, a, b),
        Side::Left(a, b, c) => {
            let inner = once(alloc, function, a, b)?;
            applied(alloc, function, inner, variable(function, c))
        }
        Side::Right(a, b, c) => {
            let inner = once(alloc, function, b, c)?;
            applied(alloc, function, variable(function, a), inner)
        }
    }
}

/// The variable of the name, behind the leading ones.
fn variable(function: &Function<'_>, name: Name) -> Term
    requires { IsNumbered function.now }
    ensures { result ≡ table.variable (subject_of function.now) name }
{
    let leading = function.leading.len() as u32;
    match name {
        Name::X => Term::Free(leading),
        Name::Y => Term::Free(leading + 1),
        Name::Z => Term::Free(leading + 2),
    }
}

/// The truth value.
fn truth(alloc: Global, holds: bool) -> Term
    ensures { result ≡ table.truth_term holds }
{
    Term::Con {
        datatype: 0,
        con: u32::from(holds),
        types: Items::new(alloc),
        fields: Items::new(alloc),
    }
}

/// The function on its leading variables and two others.
fn once(alloc: Global, function: &Function<'_>, a: Name, b: Name) -> Result<Term, NoMemory>
    requires { IsNumbered function.now }
    ensures { IfOk result (λ t. let s = subject_of function.now in t ≡ clauses.applied s (table.variable s a) (table.variable s b)) }
{
    applied(
        alloc,
        function,
        variable(function, a),
        variable(function, b),
    )
}

/// The function on its leading variables and two terms.
fn applied(
    alloc: Global,
    function: &Function<'_>,
    first: Term,
    second: Term,
) -> Result<Term, NoMemory>
    requires { IsNumbered function.now }
    ensures { IfOk result (λ t. t ≡ clauses.applied (subject_of function.now) first second) }
{
    let mut args = variables(alloc, function.leading.len() as u32)?;
    args.push(first)?;
    args.push(second)?;
    Ok(Term::Call {
        fun: Fun {
            head: function.head,
            types: own_types(alloc, function.tparams)?,
        },
        funs: own_functions(alloc, function.funs.len() as u32)?,
        args,
    })
}

/// The data variables below a number.
fn variables(alloc: Global, count: u32) -> Result<Items<Term>, NoMemory>
    ensures { IfOk result (λ made. made ≡ map (λ (i : ℕ). terms.Free i) (types.numbers_from 0 count)) }
{
    let mut made = Items::new(alloc);
    for number in 0..count {
        made.push(Term::Free(number))?;
    }
    Ok(made)
}

/// The type variables below a number.
fn own_types(alloc: Global, count: u32) -> Result<Items<Ty>, NoMemory>
    ensures { IfOk result (λ made. made ≡ types.own_types count) }
{
    let mut made = Items::new(alloc);
    for number in 0..count {
        made.push(Ty::Var(number))?;
    }
    Ok(made)
}

/// The function variables below a number.
fn own_functions(alloc: Global, count: u32) -> Result<Items<Fun>, NoMemory>
    ensures { IfOk result (λ made. made ≡ types.own_functions count) }
{
    let mut made = Items::new(alloc);
    for number in 0..count {
        made.push(Fun {
            head: Head::FnVar(number),
            types: Items::new(alloc),
        })?;
    }
    Ok(made)
}
