ghost use Rattle.std.specs.Prelude.{◌≡◌, ◌<◌, ◌++◌, length, option_and_then, slice_get, slice_set, IfOk, OnOk};
ghost use Rattle.std.specs.Option.{option_copied, option_map};
ghost use Rattle.px_terms.specs.Terms.{children, replaced, subterm};

use crate::copying::{copy, copy_fun, copy_funs, copy_terms, copy_tys};
use crate::path::Path;
use crate::term::Term;
use px_base::NoMemory;
use sqlite_items::{Boxed, Items, at};
use std::alloc::Global;

/// The child of this number, where the term has one: a constructor field, a data argument, or the scrutinee
/// as child 0. Arms, types and functions are no children. It takes no memory.
pub fn child<'a>(t: &'a Term, number: u32) -> Option<&'a Term>
    ensures { option_copied result ≡ slice_get (children t.now) number }
{
    match t {
        Term::Free(_) | Term::Bound(_) | Term::Lit(_) => None,
        Term::Con { fields, .. } => at(fields.as_slice(), number as usize),
        Term::Call { args, .. } => at(args.as_slice(), number as usize),
        Term::Match { on, .. } => { if number == 0 { Some(on.get()) } else { None } }
    }
}

/// The part of the term at the place, or `None` exactly where the term has no such place. It takes no memory.
pub fn at_path<'a>(t: &'a Term, path: &Path) -> Option<&'a Term>
    ensures { option_copied result ≡ subterm t.now path.now }
{
    below(t, path.as_slice())
}

/// The part of the term that these child numbers lead to.
fn below<'a>(t: &'a Term, path: &[u32]) -> Option<&'a Term>
    ensures { option_copied result ≡ subterm t.now path.now }
{
    match path {
        [] => Some(t),
        [number, rest @ ..] => match child(t, *number) {
            Some(part) => below(part, rest),
            None => None,
        },
    }
}

/// The term with a copy of `by` at the place, or `None` exactly where the term has no such place. All that
/// does not stand on the way is copied once. It takes memory, and fails only where there is none; its calls
/// nest as deep as the path and the terms.
pub fn replace_at(alloc: Global, t: &Term, path: &Path, by: &Term) -> Result<Option<Term>, NoMemory>
    ensures { IfOk result (λ r. r ≡ replaced t.now path.now by.now) }
{
    replace_below(alloc, t, path.as_slice(), by)
}

/// The term with a copy of `by` where these child numbers lead to.
#[cycle(replace_below)]
fn replace_below(alloc: Global, t: &Term, path: &[u32], by: &Term) -> Result<Option<Term>, NoMemory>
    ensures { IfOk result (λ r. r ≡ replaced t.now path.now by.now) }
{
    let [number, rest @ ..] = path else {
        return Ok(Some(copy(alloc, by)?));
    };
    match t {
        Term::Free(_) | Term::Bound(_) | Term::Lit(_) => Ok(None),
        Term::Con {
            datatype,
            con,
            types,
            fields,
        } => {
            let Some(fields) = replace_among(alloc, fields.as_slice(), *number, rest, by)? else {
                return Ok(None);
            };
            Ok(Some(Term::Con {
                datatype: *datatype,
                con: *con,
                types: copy_tys(alloc, types.as_slice())?,
                fields,
            }))
        }
        Term::Call { fun, funs, args } => {
            let Some(args) = replace_among(alloc, args.as_slice(), *number, rest, by)? else {
                return Ok(None);
            };
            Ok(Some(Term::Call {
                fun: copy_fun(alloc, fun)?,
                funs: copy_funs(alloc, funs.as_slice())?,
                args,
            }))
        }
        Term::Match {
            on,
            datatype,
            types,
            arms,
        } => {
            if *number != 0 {
                return Ok(None);
            }
            let Some(new) = replace_below(alloc, on.get(), rest, by)? else {
                return Ok(None);
            };
            Ok(Some(Term::Match {
                on: Boxed::new(alloc, new)?,
                datatype: *datatype,
                types: copy_tys(alloc, types.as_slice())?,
                arms: copy_terms(alloc, arms.as_slice())?,
            }))
        }
    }
}

/// The terms with a copy of `by` in the one of this number, where the child numbers lead to in it.
#[cycle(replace_below)]
fn replace_among(
    alloc: Global,
    terms: &[Term],
    number: u32,
    path: &[u32],
    by: &Term,
) -> Result<Option<Items<Term>>, NoMemory>
    ensures { IfOk result (λ r. r ≡ option_and_then (λ part. option_map (slice_set terms.now number) (replaced part path.now by.now)) (slice_get terms.now number)) }
{
    let Some(part) = at(terms, number as usize) else {
        return Ok(None);
    };
    let Some(new) = replace_below(alloc, part, path, by)? else {
        return Ok(None);
    };
    Ok(Some(copy_with(alloc, terms, number as usize, new)?))
}

/// Copies of the terms, with this one in place of the one of this number.
fn copy_with(
    alloc: Global,
    terms: &[Term],
    number: usize,
    new: Term,
) -> Result<Items<Term>, NoMemory>
    requires { number < length terms.now }
    ensures { IfOk result (λ r. r ≡ slice_set terms.now number new) }
{
    let mut copies = copy_terms(alloc, &terms[..number])?;
    copies.push(new)?;
    push_copies(alloc, &mut copies, &terms[number + 1..])?;
    Ok(copies)
}

/// Puts a copy of each term at the end.
fn push_copies(alloc: Global, copies: &mut Items<Term>, terms: &[Term]) -> Result<(), NoMemory>
    ensures { OnOk result (copies.new ≡ copies.old ++ terms.now) }
{
    for t in terms {
        copies.push(copy(alloc, t)?)?;
    }
    Ok(())
}
