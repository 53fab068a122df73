use sqlite_items::Items;

/// What a call begins: a definition by its number, a built-in, or the function that stands for a function parameter
/// of the frame, by the parameter's number.
#[derive(Clone, Copy, Debug, PartialEq, Eq)]
pub enum CallTarget {
    Def(u32),
    Wle,
    Weq,
    Param(u32),
}

/// An instruction of the machine. It works on the locals and on the stack of values of the frame that runs. A place
/// is the number of an instruction in the list of the frame's definition.
///
/// - `Local` pushes the local of this number.
/// - `Lit` pushes the word.
/// - `Make` pops `n` values and pushes the constructor on them, in the order in which they were pushed.
/// - `Call` pops `n` values. A built-in pushes `False` or `True`; a definition begins a frame with the values as locals and
///   what `funs` stand for as function parameters, and counts as a call.
/// - `Branch` pops a constructor, appends its fields to the locals, and goes on at the place of its number.
/// - `Forget` drops so many of the last locals.
/// - `Jump` goes on at the place.
/// - `Return` ends the frame and pushes its top value on the caller's stack.
#[derive(Drop)]
pub enum Instr {
    Local(u32),
    Lit(u64),
    Make {
        datatype: u32,
        con: u32,
        n: u32,
    },
    Call {
        target: CallTarget,
        funs: Items<CallTarget>,
        n: u32,
    },
    Branch(Items<u32>),
    Forget(u32),
    Jump(u32),
    Return,
}

/// The code of a program: a list of instructions for each definition, by its number.
#[derive(Drop)]
pub struct Code {
    pub defs: Items<Items<Instr>>,
}
