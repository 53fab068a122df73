//! Branches of the search.

use px_terms::Sequent;
use sqlite_items::Items;

/// A branch of the search: a sequent, and for each of its facts whether it is still used.
#[derive(Drop)]
pub struct Branch {
    pub sequent: Sequent,
    pub used: Items<bool>,
}
