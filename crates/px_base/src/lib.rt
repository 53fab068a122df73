//! What every layer shares, and nothing of the logic: written programs with their places in the text, names,
//! properties, what can be called, texts, the want of memory, and the product's limits. Contracts see a text
//! as its bytes and a list as a list. Nothing here takes memory but what its caller hands it.
#![tactic(auto)]

mod head;
pub mod limits;
mod memory;
mod names;
mod prop;
mod raw;
mod text;

pub use head::Head;
pub use memory::NoMemory;
pub use names::Names;
pub use prop::{Prop, PropSet};
pub use raw::{
    Decl, RawArm, RawClaim, RawCon, RawData, RawDef, RawEquation, RawFnType, RawFun, RawKind,
    RawLemma, RawProgram, RawProp, RawReplica, RawTerm, RawTy, RawTyKind,
};
pub use text::Text;
