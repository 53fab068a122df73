//! Cases: what a sequent becomes where a variable or a term is each constructor in turn, where a fact's two sides are one
//! constructor, and whether a fact's heads clash. The children stand in px_terms (`specs/Rows.antt`); each engine answers
//! exactly them, or says why there are none (`SplitEnd`).
//!
//! `split_variable` makes its children anew; `split_term` and `inject` take the sequent, and `split_term` copies it only for a
//! second child. The limits are asked of each child: of what is put in for a variable before a term is made (`put_limits`), and
//! of a field's type before it is. Which row asks for this is left to whoever asks.
#![tactic(auto)]

mod copies;
mod ends;
mod facts;
mod match_free;
mod put_depths;
mod put_limits;
mod put_sizes;
mod shapes;
mod small;
mod splits;
mod variables;

pub use ends::{NoSuchFact, SplitEnd};
pub use facts::{SideFields, clashes, inject, one_head};
pub use small::{is_small, is_within_limits};
pub use splits::split_term;
pub use variables::split_variable;
