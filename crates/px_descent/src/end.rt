/// Descent fails: `def` is the first definition that does not descend, and `call` is the number of its first self-call
/// that lowers no position of the largest set that no self-call raises, or 2^32 - 1 where that number is greater. The
/// self-calls of a body are counted from 0 in preorder, with arms in the order of the datatype's constructors.
#[derive(Clone, Copy, Debug, PartialEq, Eq)]
pub struct NoDescent {
    pub def: u32,
    pub call: u32,
}
