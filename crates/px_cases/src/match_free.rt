//! Terms without a match.
ghost use Rattle.std.specs.Prelude.{◌↔◌, IsTrue};
ghost use Rattle.px_terms.specs.declared.term.Term.{out-Term};
ghost use Rattle.px_terms.specs.Rows.{AreMatchFree, IsMatchFree};

use px_terms::Term;

/// Whether the term has no match. It takes no memory; its calls nest as deep as the term.
#[cycle(is_match_free)]
pub(crate) fn is_match_free(term: &Term) -> bool
    ensures { IsTrue result ↔ IsMatchFree (out-Term term.now) }
{
    match term {
        Term::Free(_number) => true,
        Term::Bound(_number) => true,
        Term::Lit(_word) => true,
        Term::Con { fields, .. } => are_match_free(fields.as_slice()),
        Term::Call { args, .. } => are_match_free(args.as_slice()),
        Term::Match { .. } => false,
    }
}

/// Whether no term has a match.
#[cycle(is_match_free)]
fn are_match_free(terms: &[Term]) -> bool
    ensures { IsTrue result ↔ AreMatchFree terms.now }
{
    for term in terms {
        if !is_match_free(term) {
            return false;
        }
    }
    true
}
