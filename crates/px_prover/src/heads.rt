//! The heads of the two sides of an equation.

ghost use Rattle.std.specs.Prelude.{◌↔◌, IsTrue};
ghost use Rattle.px_terms.specs.Rows.{HeadsClash};
ghost use Rattle.px_prover.specs.Normalising.{HasOneHead};

use px_terms::Term;

/// The heads clash: they are distinct constructors or distinct literals. It takes no memory.
pub(crate) fn heads_clash(left: &Term, right: &Term) -> bool
    ensures { IsTrue result ↔ HeadsClash left.now right.now }
{
    match (left, right) {
        (
            Term::Con {
                datatype: d,
                con: k,
                ..
            },
            Term::Con {
                datatype: e,
                con: l,
                ..
            },
        ) => d != e || k != l,
        (Term::Lit(v), Term::Lit(w)) => v != w,
        _ => false,
    }
}

/// Both terms are one constructor, each on its own fields. It takes no memory.
pub(crate) fn have_one_head(left: &Term, right: &Term) -> bool
    ensures { IsTrue result ↔ HasOneHead left.now right.now }
{
    match (left, right) {
        (
            Term::Con {
                datatype: d,
                con: k,
                ..
            },
            Term::Con {
                datatype: e,
                con: l,
                ..
            },
        ) => d == e && k == l,
        _ => false,
    }
}
