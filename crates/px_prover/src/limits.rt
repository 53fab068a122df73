//! The limits of the plain class.

/// The steps that one normalisation takes at most.
pub const UNITS: u32 = 2_000;
/// The leaf pairs that a pair of sides falls into at most, where it is closed.
pub const LEAF_PAIRS: usize = 250;
