/// A property of a function.
#[derive(Clone, Copy, Debug, PartialEq, Eq)]
pub enum Prop {
    Comm,
    Assoc,
    Idem,
    Sel,
    Refl,
    Irrefl,
    Sym,
    Antisym,
    Asym,
    Trans,
    Conn,
}

/// A set of properties: `has[i]` is for the variant `i` of `Prop`, counted from 0.
#[derive(Clone, Copy, Debug, PartialEq, Eq)]
pub struct PropSet {
    pub has: [bool; 11],
}
