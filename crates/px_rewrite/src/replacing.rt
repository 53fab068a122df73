//! A term with another part: what is put in is moved to its place, and what does not stand on the way to it is copied once.

ghost use Rattle.std.specs.Prelude.{◌≡◌, ◌<◌, ◌++◌, length, option_and_then, slice_get, slice_set, IfOk, OnOk};
ghost use Rattle.std.specs.Option.{option_map};
ghost use Rattle.px_terms.specs.Terms.{replaced};

use px_terms::{NoMemory, Path, Term, copy, copy_fun, copy_funs, copy_terms, copy_tys};
use sqlite_items::{Boxed, Items, at};
use std::alloc::Global;

/// The term with `by` at the place, or `None` exactly where the term has no such place. It takes memory for what does not stand
/// on the way, and fails only where there is none; its calls nest as deep as the path and the terms.
pub(crate) fn put_at(
    alloc: Global,
    t: &Term,
    path: &Path,
    by: Term,
) -> Result<Option<Term>, NoMemory>
    ensures { IfOk result (λ r. r ≡ replaced t.now path.now by) }
{
    put_below(alloc, t, path.as_slice(), by)
}

/// The term with `by` where these child numbers lead to.
#[cycle(put_below)]
fn put_below(alloc: Global, t: &Term, path: &[u32], by: Term) -> Result<Option<Term>, NoMemory>
    ensures { IfOk result (λ r. r ≡ replaced t.now path.now by) }
{
    let [number, rest @ ..] = path else {
        return Ok(Some(by));
    };
    match t {
        Term::Free(_) | Term::Bound(_) | Term::Lit(_) => Ok(None),
        Term::Con {
            datatype,
            con,
            types,
            fields,
        } => {
            let Some(fields) = put_among(alloc, fields.as_slice(), *number, rest, by)? else {
                return Ok(None);
            };
            Ok(Some(Term::Con {
                datatype: *datatype,
                con: *con,
                types: copy_tys(alloc, types.as_slice())?,
                fields,
            }))
        }
        Term::Call { fun, funs, args } => {
            let Some(args) = put_among(alloc, args.as_slice(), *number, rest, by)? else {
                return Ok(None);
            };
            Ok(Some(Term::Call {
                fun: copy_fun(alloc, fun)?,
                funs: copy_funs(alloc, funs.as_slice())?,
                args,
            }))
        }
        Term::Match {
            on,
            datatype,
            types,
            arms,
        } => {
            if *number != 0 {
                return Ok(None);
            }
            let Some(new) = put_below(alloc, on.get(), rest, by)? else {
                return Ok(None);
            };
            Ok(Some(Term::Match {
                on: Boxed::new(alloc, new)?,
                datatype: *datatype,
                types: copy_tys(alloc, types.as_slice())?,
                arms: copy_terms(alloc, arms.as_slice())?,
            }))
        }
    }
}

/// The terms with `by` in the one of this number, where the child numbers lead to in it.
#[cycle(put_below)]
fn put_among(
    alloc: Global,
    terms: &[Term],
    number: u32,
    path: &[u32],
    by: Term,
) -> Result<Option<Items<Term>>, NoMemory>
    ensures { IfOk result (λ r. r ≡ option_and_then (λ part. option_map (slice_set terms.now number) (replaced part path.now by)) (slice_get terms.now number)) }
{
    let Some(part) = at(terms, number as usize) else {
        return Ok(None);
    };
    let Some(new) = put_below(alloc, part, path, by)? else {
        return Ok(None);
    };
    Ok(Some(copy_with(alloc, terms, number as usize, new)?))
}

/// Copies of the terms, with this one in place of the one of this number.
fn copy_with(
    alloc: Global,
    terms: &[Term],
    number: usize,
    new: Term,
) -> Result<Items<Term>, NoMemory>
    requires { number < length terms.now }
    ensures { IfOk result (λ r. r ≡ slice_set terms.now number new) }
{
    let mut copies = Items::from_vec(Vec::with_capacity(alloc, terms.len())?);
    push_copies(alloc, &mut copies, &terms[..number])?;
    copies.push(new)?;
    push_copies(alloc, &mut copies, &terms[number + 1..])?;
    Ok(copies)
}

/// Puts a copy of each term at the end.
fn push_copies(alloc: Global, copies: &mut Items<Term>, terms: &[Term]) -> Result<(), NoMemory>
    ensures { OnOk result (copies.new ≡ copies.old ++ terms.now) }
{
    for t in terms {
        copies.push(copy(alloc, t)?)?;
    }
    Ok(())
}
