/// Why there is no tree.
#[derive(Clone, Copy, Debug, PartialEq, Eq)]
pub enum ParseEnd {
    /// The token at this place is the first through which no program begins; or it is the text's end, and only that is
    /// wrong.
    Fault { at: u32 },
    /// No memory was left.
    NoMemory,
}
