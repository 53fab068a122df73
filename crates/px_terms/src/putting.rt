ghost use Rattle.std.specs.Prelude.{◌≡◌, map, IfOk};
ghost use Rattle.px_terms.specs.Terms.{term_put};
ghost use Rattle.px_terms.specs.TreeEdits.{equation_put, equations_put};

use crate::clause::{Equation, EquationList};
use crate::copying::{copy, copy_fun, copy_funs, copy_tys};
use crate::term::Term;
use px_base::NoMemory;
use sqlite_items::{Boxed, Items};
use std::alloc::Global;

/// The term with `by` put in for each free variable of this number. It takes memory, and fails only where
/// there is none; its calls nest as deep as the term.
#[cycle(put)]
pub fn put(alloc: Global, t: &Term, variable: u32, by: &Term) -> Result<Term, NoMemory>
    ensures { IfOk result (λ r. r ≡ term_put variable by.now t.now) }
{
    match t {
        Term::Free(number) => {
            if *number == variable {
                copy(alloc, by)
            } else {
                Ok(Term::Free(*number))
            }
        }
        Term::Bound(number) => Ok(Term::Bound(*number)),
        Term::Lit(word) => Ok(Term::Lit(*word)),
        Term::Con {
            datatype,
            con,
            types,
            fields,
        } => Ok(Term::Con {
            datatype: *datatype,
            con: *con,
            types: copy_tys(alloc, types.as_slice())?,
            fields: put_terms(alloc, fields.as_slice(), variable, by)?,
        }),
        Term::Call { fun, funs, args } => Ok(Term::Call {
            fun: copy_fun(alloc, fun)?,
            funs: copy_funs(alloc, funs.as_slice())?,
            args: put_terms(alloc, args.as_slice(), variable, by)?,
        }),
        Term::Match {
            on,
            datatype,
            types,
            arms,
        } => Ok(Term::Match {
            on: Boxed::new(alloc, put(alloc, on.get(), variable, by)?)?,
            datatype: *datatype,
            types: copy_tys(alloc, types.as_slice())?,
            arms: put_terms(alloc, arms.as_slice(), variable, by)?,
        }),
    }
}

/// Each term with `by` put in for each free variable of this number.
#[cycle(put)]
fn put_terms(
    alloc: Global,
    terms: &[Term],
    variable: u32,
    by: &Term,
) -> Result<Items<Term>, NoMemory>
    ensures { IfOk result (λ r. r ≡ map (term_put variable by.now) terms.now) }
{
    let mut done = Items::new(alloc);
    for t in terms {
        done.push(put(alloc, t, variable, by)?)?;
    }
    Ok(done)
}

/// The equation with `by` put in for each free variable of this number, on both sides.
fn put_equation(
    alloc: Global,
    equation: &Equation,
    variable: u32,
    by: &Term,
) -> Result<Equation, NoMemory>
    ensures { IfOk result (λ r. r ≡ equation_put variable by.now equation.now) }
{
    Ok(Equation {
        left: put(alloc, &equation.left, variable, by)?,
        right: put(alloc, &equation.right, variable, by)?,
    })
}

/// Each equation with `by` put in for each free variable of this number, on both sides. It takes memory,
/// and fails only where there is none.
pub fn put_equations(
    alloc: Global,
    equations: &[Equation],
    variable: u32,
    by: &Term,
) -> Result<EquationList, NoMemory>
    ensures { IfOk result (λ r. r ≡ equations_put variable by.now equations.now) }
{
    let mut done = EquationList::new(alloc);
    for equation in equations {
        done.push(put_equation(alloc, equation, variable, by)?)?;
    }
    Ok(done)
}
