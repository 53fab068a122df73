//! The places of a term that a path reaches.
ghost use Rattle.std.specs.Prelude.{◌≡◌, ◌<◌, ◌^◌, ◌++◌, ◌↔◌, ℕ, Contains, IfOk, List, OnOk, Some, length, map};
ghost use Rattle.px_terms.specs.Terms.{children, subterm, term_size};
ghost use Rattle.px_prover.specs.Places.{ArePlaces, seen_spot};

use crate::leaf_pairs::path_below;
use px_terms::{NoMemory, Path, Term, child, same_term};
use sqlite_items::Items;
use std::alloc::Global;

/// A part of a term at its place: no path leads into an arm.
#[derive(Drop)]
pub(crate) struct Spot<'a> {
    pub(crate) path: Items<u32>,
    pub(crate) part: &'a Term,
}

/// The paths at which the part stands in the term: none leads into an arm. It takes memory.
pub(crate) fn paths_to(alloc: Global, t: &Term, part: &Term) -> Result<Items<Items<u32>>, NoMemory>
    requires fits { term_size t.now < 2 ^ 32 }
    ensures { IfOk result (λ paths. (path : List ℕ) → Contains paths path ↔ (subterm t.now path ≡ Some part.now)) }
{
    let places = spots(alloc, &[], t)?;
    paths_of(alloc, places.as_slice(), part)
}

/// The paths of the places where this part stands.
fn paths_of(alloc: Global, places: &[Spot], part: &Term) -> Result<Items<Items<u32>>, NoMemory>
    ensures { IfOk result (λ paths. (path : List ℕ) → Contains paths path ↔ Contains (map seen_spot places.now) (record { path = path; part = part.now })) }
{
    let mut paths = Items::new(alloc);
    for place in places {
        if !same_term(place.part, part) {
            continue;
        }
        let path = Items::from_slice(alloc, place.path.as_slice())?;
        paths.push(path)?;
    }
    Ok(paths)
}

/// The places of the term, itself at this path, from the top and from left to right. It takes memory.
pub(crate) fn spots<'a>(
    alloc: Global,
    path: &[u32],
    t: &'a Term,
) -> Result<Items<Spot<'a>>, NoMemory>
    requires fits { term_size t.now < 2 ^ 32 }
    ensures { IfOk result (ArePlaces path.now t.now) }
{
    let mut found = Items::new(alloc);
    found.push(Spot {
        path: Items::from_slice(alloc, path)?,
        part: t,
    })?;
    for number in 0..child_count(t) {
        let Some(part) = child(t, number as u32) else {
            unreachable!()
        };
        let place = path_below(alloc, path, number as u32)?;
        let more = spots(alloc, place.as_slice(), part)?;
        found.append(more)?;
    }
    Ok(found)
}

/// How many children the term has.
fn child_count(t: &Term) -> usize
    ensures { result ≡ length (children t.now) }
{
    match t {
        Term::Free(_) | Term::Bound(_) | Term::Lit(_) => 0,
        Term::Con { fields, .. } => fields.len(),
        Term::Call { args, .. } => args.len(),
        Term::Match { .. } => 1,
    }
}

/// The path of these child numbers, and then those. It takes memory.
pub(crate) fn path_through(alloc: Global, first: &[u32], then: &[u32]) -> Result<Path, NoMemory>
    ensures { IfOk result (λ path. path ≡ first.now ++ then.now) }
{
    let mut path = Path::new(alloc);
    push_all(&mut path, first)?;
    push_all(&mut path, then)?;
    Ok(path)
}

/// Goes on along these child numbers.
fn push_all(path: &mut Path, children: &[u32]) -> Result<(), NoMemory>
    ensures { OnOk result (path.new ≡ path.old ++ children.now) }
{
    for child in children {
        path.push(*child)?;
    }
    Ok(())
}
