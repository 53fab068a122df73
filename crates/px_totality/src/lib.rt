//! Every call has one value. The laws stand on functions without a body: in a program that is typed and descends, and so in every
//! extension of such a program, each call of a definition on functions that fit and on values of its parameters' types has exactly one
//! value and one number of calls, and so has each typed term at fitting values of its variables. The argument is in `proofs/`: sizes of
//! values fall from call to call, and a later definition is never reached but through a function that is total already. On these laws
//! rests that the properties of the built-ins, and what properties imply, are true. Small closed programs try the definitions of
//! extensions themselves. Nothing here runs.
#![tactic(auto)]

mod example_laws;
mod laws;
mod property_laws;

pub use example_laws::{
    empty_holds_of_nothing, first_is_not_commutative, same_of_any_fails, same_of_idempotent_holds,
};
pub use laws::{
    each_call_has_value, each_function_has_value, each_term_has_value, extensions_compose,
    extensions_keep,
};
pub use property_laws::{
    arguments_fit, at_most_fits, built_ins_have, built_ins_lack, declared_is_had, implied_is_true,
};
