use px_machine::FlatValue;
use sqlite_items::Items;

/// What a show prints: the replica, the numbers of the updates that it holds, rising, and its state.
#[derive(Drop)]
pub struct Shown {
    pub replica: u32,
    pub numbers: Items<u32>,
    pub value: FlatValue,
}
