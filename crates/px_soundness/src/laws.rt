//! What is said of derivations, as functions whose contracts are these laws.
ghost use Rattle.px_soundness.specs.Laws.{DerivationsAreSound, EachStackIsTree, OneClause, OneOpening, StacksAreTrees};

use crate::argument::{first_sequents_are_typed, rows_are_kept, rows_are_sound, rows_keep_typing};
use px_totality::extensions_keep;

/// In a program that is typed and descends a row leaves at most one list of children of a sequent.
pub fn one_opening()
    ensures { OneOpening }
{}

/// Rows lead from a stack of sequents to nothing open exactly where they are those of trees that derive them.
pub fn stack_is_trees()
    ensures { StacksAreTrees }
{}

/// Rows lead from one sequent to nothing open exactly where they are those of a tree that derives it.
pub fn stack_is_tree()
    ensures { EachStackIsTree }
{}

/// An obligation has at most one clause.
pub fn one_clause()
    ensures { OneClause }
{}

/// Where trees derive the obligations of a program that is typed and descends, each obligation holds in every extension.
pub fn derivations_are_sound()
    ensures { DerivationsAreSound }
{
    first_sequents_are_typed();
    rows_keep_typing();
    rows_are_kept();
    rows_are_sound();
    extensions_keep();
}
