use px_machine::FlatValue;
use sqlite_items::Items;

/// The numbers of the updates that a replica or a message holds, rising, and the join of them.
#[derive(Drop)]
pub struct Version {
    pub numbers: Items<u32>,
    pub state: FlatValue,
}
