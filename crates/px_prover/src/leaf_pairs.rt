//! The leaf pairs of a pair of terms.
ghost use Rattle.std.specs.Prelude.{◌≡◌, ◌<◌, ◌^◌, ◌∷◌, ◌++◌, [], IfOk};
ghost use Rattle.px_terms.specs.Terms.{term_size, terms_size};
ghost use Rattle.px_prover.specs.Leaves.{TellsLeafPairs, TellsLeafPairsOfFields};

use px_cases::one_head;
use px_terms::{NoMemory, Term, same_term};
use sqlite_items::Items;
use std::alloc::Global;

/// A pair that no step divides, at its place in both sides of an alternative.
#[derive(Drop)]
pub(crate) struct Leaf<'a> {
    pub(crate) path: Items<u32>,
    pub(crate) left: &'a Term,
    pub(crate) right: &'a Term,
}

/// The leaf pairs of the pair at this path: none where it is one term, those of its pairs of fields where it is one constructor,
/// else itself. None where there are more than so many. It takes memory.
#[cycle(leaf_pairs)]
pub(crate) fn leaf_pairs<'a>(
    alloc: Global,
    path: &[u32],
    left: &'a Term,
    right: &'a Term,
    most: usize,
) -> Result<Option<Items<Leaf<'a>>>, NoMemory>
    requires fits { term_size left.now < 2 ^ 32 }
    ensures { IfOk result (TellsLeafPairs path.now left.now right.now most) }
{
    if same_term(left, right) {
        return Ok(Some(Items::new(alloc)));
    }
    if let Some(heads) = one_head(left, right) {
        return leaf_pairs_of_fields(
            alloc,
            path,
            heads.fields.as_slice(),
            heads.parts.as_slice(),
            most,
        );
    }
    if most == 0 {
        return Ok(None);
    }
    let mut alone = Items::new(alloc);
    alone.push(Leaf {
        path: Items::from_slice(alloc, path)?,
        left,
        right,
    })?;
    Ok(Some(alone))
}

/// The leaf pairs of the pairs of fields. None where there are more than so many, or the fields are not in pairs.
#[cycle(leaf_pairs)]
fn leaf_pairs_of_fields<'a>(
    alloc: Global,
    path: &[u32],
    fields: &'a [Term],
    parts: &'a [Term],
    most: usize,
) -> Result<Option<Items<Leaf<'a>>>, NoMemory>
    requires fit { terms_size fields.now < 2 ^ 32 }
    ensures { IfOk result (TellsLeafPairsOfFields path.now fields.now parts.now most) }
{
    let mut found = Items::new(alloc);
    if fields.len() != parts.len() {
        return Ok(None);
    }
    for number in 0..fields.len() {
        let place = path_below(alloc, path, number as u32)?;
        let left = &fields[number];
        let right = &parts[number];
        let Some(more) = leaf_pairs(alloc, place.as_slice(), left, right, most - found.len())?
        else {
            return Ok(None);
        };
        found.append(more)?;
    }
    Ok(Some(found))
}

/// The path, and then this child.
pub(crate) fn path_below(alloc: Global, path: &[u32], child: u32) -> Result<Items<u32>, NoMemory>
    ensures { IfOk result (λ below. below ≡ path.now ++ child ∷ []) }
{
    let mut below = Items::from_slice(alloc, path)?;
    below.push(child)?;
    Ok(below)
}
