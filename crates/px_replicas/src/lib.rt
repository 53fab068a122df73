//! Replicas of a state-based data type, event by event. `World` keeps what each replica and each message holds: its update numbers
//! and its state. A state is kept once, as a version; replicas and messages name versions, so sending copies nothing, and a
//! version that nothing names is kept no longer. What a replica holds, the join of that and the lines of a run are definitions
//! (`specs/`), which know nothing of versions; whatever is lost, repeated or reordered, a world stands for its schedule by them.
#![tactic(auto)]

mod first;
mod laws;
mod merge;
mod shown;
mod unions;
mod version;
mod versions;
mod world;

pub use laws::{
    declared_merges_join, held_by_cases, join_of_a_set, lines_exist, lines_go_on, next_fits,
    one_need, one_output, one_state, same_held_same_state, schedules_may_happen, states_exist,
};
pub use shown::Shown;
pub use version::Version;
pub use world::World;
