//! The parts of the argument, as functions whose contracts are these laws.
ghost use Rattle.px_soundness.specs.Argument.{FirstSequentsAreTyped, OpenClausesAreTyped, RowsAreKept, RowsAreSound, RowsKeepTyping, StepsKeepTypes, StepsKeepValues};

use px_totality::each_term_has_value;

/// A step keeps the type of a term.
pub fn steps_keep_types()
    ensures { StepsKeepTypes }
{}

/// A step keeps the value of a term, at all types, functions and values that make the facts true.
pub fn steps_keep_values()
    ensures { StepsKeepValues }
{}

/// The first sequent of an obligation is typed.
pub fn first_sequents_are_typed()
    ensures { FirstSequentsAreTyped }
{}

/// What a row leaves of a typed sequent is typed.
pub fn rows_keep_typing()
    ensures { RowsKeepTyping }
{}

/// What is open to an obligation is typed.
pub fn open_clauses_are_typed()
    ensures { OpenClausesAreTyped }
{}

/// A row that applies to a typed sequent applies to it in each extension of the program, and leaves the same.
pub fn rows_are_kept()
    ensures { RowsAreKept }
{}

/// A row is sound: where its children are valid at a sum of sizes, its sequent is.
pub fn rows_are_sound()
    ensures { RowsAreSound }
{
    each_term_has_value();
    open_clauses_are_typed();
    steps_keep_values();
}
