//! The guard of the hypothesis.
ghost use Rattle.std.specs.Prelude.{◌≡◌, ◌↔◌, IsTrue, ℕ, Some, slice_get, All};
ghost use Rattle.px_terms.specs.declared.sequent.Present.{Present as Entry};
ghost use Rattle.px_terms.specs.Guards.{Guard, PutsOther, PutsPart};

use px_terms::{Frame, Present, Term, is_con_subterm, same_term};
use sqlite_items::at;

/// Whether the guard allows the hypothesis with these terms put in: each variable of the frame gets a constructor-subterm of
/// its present term, and at least one a proper one. It takes no memory.
pub fn allows(frame: &Frame, terms: &[Term]) -> bool
    ensures { IsTrue result ↔ Guard frame.now terms.now }
{
    let entries = frame.entries.as_slice();
    all_put_parts(entries, terms) && one_puts_other(entries, terms)
}

/// Whether each variable gets a constructor-subterm of its present term.
fn all_put_parts(entries: &[Present], terms: &[Term]) -> bool
    ensures { IsTrue result ↔ All (PutsPart terms.now) entries.now }
{
    for entry in entries {
        if !puts_part(entry, terms) {
            return false;
        }
    }
    true
}

/// Whether some variable gets another term than its present one.
fn one_puts_other(entries: &[Present], terms: &[Term]) -> bool
    ensures { IsTrue result ↔ ((i : ℕ) × (p : Entry) × (slice_get entries.now i ≡ Some p) × PutsOther terms.now p) }
{
    for entry in entries {
        if puts_other(entry, terms) {
            return true;
        }
    }
    false
}

/// Whether the variable gets a constructor-subterm of its present term.
fn puts_part(entry: &Present, terms: &[Term]) -> bool
    ensures { IsTrue result ↔ PutsPart terms.now entry.now }
{
    match at(terms, entry.variable as usize) {
        Some(by) => is_con_subterm(by, &entry.term),
        None => false,
    }
}

/// Whether the variable gets another term than its present one.
fn puts_other(entry: &Present, terms: &[Term]) -> bool
    ensures { IsTrue result ↔ PutsOther terms.now entry.now }
{
    match at(terms, entry.variable as usize) {
        Some(by) => !same_term(by, &entry.term),
        None => false,
    }
}
