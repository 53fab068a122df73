//! What derives is true. The laws stand on functions without a body: a row leaves one list of children, rows and trees are
//! one thing seen twice, rows keep typing and are kept by extensions, a step keeps types and values, each row is sound, and
//! where trees derive the obligations of a program that is typed and descends, each obligation holds in the language's
//! meaning, in every extension. The argument is in `proofs/`, a file for each row of derivations, under what `Assumed` says
//! (`specs/Argument.antt`). Nothing here speaks of bytes, and nothing runs.
#![tactic(auto)]

mod argument;
mod laws;

pub use argument::{
    first_sequents_are_typed, open_clauses_are_typed, rows_are_kept, rows_are_sound,
    rows_keep_typing, steps_keep_types, steps_keep_values,
};
pub use laws::{derivations_are_sound, one_clause, one_opening, stack_is_tree, stack_is_trees};
