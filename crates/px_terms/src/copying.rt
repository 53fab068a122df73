ghost use Rattle.std.specs.Prelude.{◌≡◌, IfOk, []};

use crate::clause::{Equation, EquationList};
use crate::term::Term;
use crate::types::{FnType, Fun, Ty};
use px_base::NoMemory;
use sqlite_items::{Boxed, Items};
use std::alloc::Global;

/// An empty list that has room for so many parts, so that a list of known length takes no more memory than its parts. It takes that memory,
/// and fails only where there is none.
pub(crate) fn room_for<T>(alloc: Global, count: usize) -> Result<Items<T>, NoMemory>
    ensures { IfOk result (λ items. items ≡ []) }
{
    Ok(Items::from_vec(Vec::with_capacity(alloc, count)?))
}

/// A copy of the type. It takes memory, and fails only where there is none.
#[cycle(copy_ty)]
pub fn copy_ty(alloc: Global, ty: &Ty) -> Result<Ty, NoMemory>
    ensures { IfOk result (λ r. r ≡ ty.now) }
{
    match ty {
        Ty::Word => Ok(Ty::Word),
        Ty::Var(number) => Ok(Ty::Var(*number)),
        Ty::Con { datatype, args } => Ok(Ty::Con {
            datatype: *datatype,
            args: copy_tys(alloc, args.as_slice())?,
        }),
    }
}

/// A copy of each type, in order. It takes memory, and fails only where there is none.
#[cycle(copy_ty)]
pub fn copy_tys(alloc: Global, types: &[Ty]) -> Result<Items<Ty>, NoMemory>
    ensures { IfOk result (λ r. r ≡ types.now) }
{
    let mut copies = room_for(alloc, types.len())?;
    for ty in types {
        copies.push(copy_ty(alloc, ty)?)?;
    }
    Ok(copies)
}

/// A copy of the function with its types. It takes memory, and fails only where there is none.
pub fn copy_fun(alloc: Global, fun: &Fun) -> Result<Fun, NoMemory>
    ensures { IfOk result (λ r. r ≡ fun.now) }
{
    Ok(Fun {
        head: fun.head,
        types: copy_tys(alloc, fun.types.as_slice())?,
    })
}

/// A copy of each function, in order. It takes memory, and fails only where there is none.
pub fn copy_funs(alloc: Global, funs: &[Fun]) -> Result<Items<Fun>, NoMemory>
    ensures { IfOk result (λ r. r ≡ funs.now) }
{
    let mut copies = Items::new(alloc);
    for fun in funs {
        copies.push(copy_fun(alloc, fun)?)?;
    }
    Ok(copies)
}

/// A copy of a function parameter's type. It takes memory, and fails only where there is none.
pub fn copy_fn_type(alloc: Global, signature: &FnType) -> Result<FnType, NoMemory>
    ensures { IfOk result (λ r. r ≡ signature.now) }
{
    let params = copy_tys(alloc, signature.params.as_slice())?;
    let result_type = copy_ty(alloc, &signature.result)?;
    Ok(FnType {
        params,
        result: result_type,
        props: signature.props,
    })
}

/// A copy of each function type. It takes memory, and fails only where there is none.
pub fn copy_fn_types(alloc: Global, signatures: &[FnType]) -> Result<Items<FnType>, NoMemory>
    ensures { IfOk result (λ r. r ≡ signatures.now) }
{
    let mut copied = Items::new(alloc);
    for signature in signatures {
        copied.push(copy_fn_type(alloc, signature)?)?;
    }
    Ok(copied)
}

/// A copy of the term. It takes memory, and fails only where there is none; its calls nest as deep as the
/// term.
#[cycle(copy)]
pub fn copy(alloc: Global, t: &Term) -> Result<Term, NoMemory>
    ensures { IfOk result (λ r. r ≡ t.now) }
{
    match t {
        Term::Free(number) => Ok(Term::Free(*number)),
        Term::Bound(number) => Ok(Term::Bound(*number)),
        Term::Lit(word) => Ok(Term::Lit(*word)),
        Term::Con {
            datatype,
            con,
            types,
            fields,
        } => Ok(Term::Con {
            datatype: *datatype,
            con: *con,
            types: copy_tys(alloc, types.as_slice())?,
            fields: copy_terms(alloc, fields.as_slice())?,
        }),
        Term::Call { fun, funs, args } => Ok(Term::Call {
            fun: copy_fun(alloc, fun)?,
            funs: copy_funs(alloc, funs.as_slice())?,
            args: copy_terms(alloc, args.as_slice())?,
        }),
        Term::Match {
            on,
            datatype,
            types,
            arms,
        } => Ok(Term::Match {
            on: Boxed::new(alloc, copy(alloc, on.get())?)?,
            datatype: *datatype,
            types: copy_tys(alloc, types.as_slice())?,
            arms: copy_terms(alloc, arms.as_slice())?,
        }),
    }
}

/// A copy of each term, in order. It takes memory, and fails only where there is none.
#[cycle(copy)]
pub fn copy_terms(alloc: Global, terms: &[Term]) -> Result<Items<Term>, NoMemory>
    ensures { IfOk result (λ r. r ≡ terms.now) }
{
    let mut copies = room_for(alloc, terms.len())?;
    for t in terms {
        copies.push(copy(alloc, t)?)?;
    }
    Ok(copies)
}

/// A copy of the equation. It takes memory, and fails only where there is none.
pub fn copy_equation(alloc: Global, equation: &Equation) -> Result<Equation, NoMemory>
    ensures { IfOk result (λ r. r ≡ equation.now) }
{
    Ok(Equation {
        left: copy(alloc, &equation.left)?,
        right: copy(alloc, &equation.right)?,
    })
}

/// A copy of each equation, in order. It takes memory, and fails only where there is none.
pub fn copy_equations(alloc: Global, equations: &[Equation]) -> Result<EquationList, NoMemory>
    ensures { IfOk result (λ r. r ≡ equations.now) }
{
    let mut copies = EquationList::new(alloc);
    for equation in equations {
        copies.push(copy_equation(alloc, equation)?)?;
    }
    Ok(copies)
}
