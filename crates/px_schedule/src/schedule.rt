use px_machine::FlatValue;
use sqlite_items::Items;

/// What takes place at one line of a schedule. Replicas, messages and updates are numbered from 0.
#[derive(Drop)]
pub enum Event {
    /// The value is contributed at the replica.
    Update { replica: u32, value: FlatValue },
    /// The next message holds the replica's state.
    Send { replica: u32 },
    /// The message reaches the replica.
    Deliver { message: u32, replica: u32 },
    /// The replica is printed.
    Show { replica: u32 },
}

/// A schedule: the number of the replica declaration, the number of replicas, and the events in order.
#[derive(Drop)]
pub struct Schedule {
    pub declaration: u32,
    pub count: u32,
    pub events: Items<Event>,
}
