/// What is called: a definition, a built-in, or a function parameter, by its number.
#[derive(Clone, Copy, Debug, PartialEq, Eq)]
pub enum Head {
    Def(u32),
    Wle,
    Weq,
    FnVar(u32),
}
