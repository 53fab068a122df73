//! What is written in terms: types, and what stands in them, and functions.
ghost use Rattle.std.specs.Prelude.{◌≡◌, ◌↔◌, ◌++◌, ◌∷◌, Contains, IfOk};
ghost use Rattle.std.specs.List.{flat_map};
ghost use Rattle.px_terms.specs.declared.types.Ty.{Ty as Kind, out-Ty};
ghost use Rattle.px_terms.specs.declared.types.Fun.{Fun as Function};
ghost use Rattle.px_terms.specs.declared.term.Term.{Term as Tree, out-Term};
ghost use Rattle.px_prover.specs.Uses.{TypeStandsIn, arguments_of, functions_written, types_written};
ghost use Rattle.px_prover.specs.Places.{TypeStandsThere};

use px_terms::{Fun, NoMemory, Term, Ty, copy_fun, copy_funs, copy_ty, copy_tys};
use sqlite_items::Items;
use std::alloc::Global;

/// Copies of the functions that are written in the layers of the terms, in order. It takes memory.
pub(crate) fn functions_written_at(alloc: Global, terms: &[Term]) -> Result<Items<Fun>, NoMemory>
    ensures { IfOk result (λ funs. funs ≡ flat_map (λ (t : Tree). functions_written (out-Term t)) terms.now) }
{
    let mut funs = Items::new(alloc);
    for t in terms {
        let more = functions_of(alloc, t)?;
        funs.append(more)?;
    }
    Ok(funs)
}

/// Copies of the functions that are written in the layer of the term.
fn functions_of(alloc: Global, t: &Term) -> Result<Items<Fun>, NoMemory>
    ensures { IfOk result (λ funs. funs ≡ functions_written (out-Term t.now)) }
{
    match t {
        Term::Call { fun, funs, .. } => with_first(alloc, fun, funs.as_slice()),
        Term::Free(_) | Term::Bound(_) | Term::Lit(_) | Term::Con { .. } | Term::Match { .. } => Ok(
            Items::new(alloc),
        ),
    }
}

/// Copies of the function, and then of the others.
fn with_first(alloc: Global, fun: &Fun, others: &[Fun]) -> Result<Items<Fun>, NoMemory>
    ensures { IfOk result (λ funs. funs ≡ fun.now ∷ others.now) }
{
    let mut funs = Items::new(alloc);
    funs.push(copy_fun(alloc, fun)?)?;
    let more = copy_funs(alloc, others)?;
    funs.append(more)?;
    Ok(funs)
}

/// Copies of the types that are written in the layers of the terms, in order. It takes memory.
pub(crate) fn types_written_at(alloc: Global, terms: &[Term]) -> Result<Items<Ty>, NoMemory>
    ensures { IfOk result (λ types. types ≡ flat_map (λ (t : Tree). types_written (out-Term t)) terms.now) }
{
    let mut types = Items::new(alloc);
    for t in terms {
        let more = types_of(alloc, t)?;
        types.append(more)?;
    }
    Ok(types)
}

/// Copies of the types that are written in the layer of the term.
fn types_of(alloc: Global, t: &Term) -> Result<Items<Ty>, NoMemory>
    ensures { IfOk result (λ types. types ≡ types_written (out-Term t.now)) }
{
    match t {
        Term::Free(_) | Term::Bound(_) | Term::Lit(_) => Ok(Items::new(alloc)),
        Term::Con { types, .. } => copy_tys(alloc, types.as_slice()),
        Term::Call { fun, funs, .. } => types_of_call(alloc, fun, funs.as_slice()),
        Term::Match { types, .. } => copy_tys(alloc, types.as_slice()),
    }
}

/// Copies of the types of the function called, and then of those of the function arguments.
fn types_of_call(alloc: Global, fun: &Fun, funs: &[Fun]) -> Result<Items<Ty>, NoMemory>
    ensures { IfOk result (λ types. types ≡ fun.now.types ++ flat_map (λ (g : Function). g.types) funs.now) }
{
    let mut types = copy_tys(alloc, fun.types.as_slice())?;
    for g in funs {
        let more = copy_tys(alloc, g.types.as_slice())?;
        types.append(more)?;
    }
    Ok(types)
}

/// Copies of the types that stand in one of these. It takes memory.
pub(crate) fn types_in_each(alloc: Global, whole: &[Ty]) -> Result<Items<Ty>, NoMemory>
    ensures { IfOk result (λ types. (u : Kind) → Contains types u ↔ TypeStandsThere whole.now u) }
{
    let mut types = Items::new(alloc);
    for ty in whole {
        let more = types_in(alloc, ty)?;
        types.append(more)?;
    }
    Ok(types)
}

/// Copies of the types that stand in the type: itself, and those that stand in its arguments. It takes memory.
pub(crate) fn types_in(alloc: Global, ty: &Ty) -> Result<Items<Ty>, NoMemory>
    ensures { IfOk result (λ types. (u : Kind) → Contains types u ↔ TypeStandsIn u ty.now) }
{
    let mut types = Items::new(alloc);
    types.push(copy_ty(alloc, ty)?)?;
    let args = arguments(ty);
    for number in 0..args.len() {
        let more = types_in(alloc, &args[number])?;
        types.append(more)?;
    }
    Ok(types)
}

/// The arguments of the type.
fn arguments<'a>(ty: &'a Ty) -> &'a [Ty]
    ensures { result.now ≡ arguments_of (out-Ty ty.now) }
{
    match ty {
        Ty::Word | Ty::Var(_) => &[],
        Ty::Con { args, .. } => args.as_slice(),
    }
}
