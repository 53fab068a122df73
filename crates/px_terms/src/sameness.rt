ghost use Rattle.std.specs.Prelude.{◌≡◌, ◌↔◌, IsTrue};

use crate::term::Term;
use crate::types::{Fun, Ty};

/// Whether the types are one. It takes no memory.
#[cycle(same_ty)]
pub fn same_ty(a: &Ty, b: &Ty) -> bool
    ensures { IsTrue result ↔ (a.now ≡ b.now) }
{
    match (a, b) {
        (Ty::Word, Ty::Word) => true,
        (Ty::Var(m), Ty::Var(n)) => m == n,
        (
            Ty::Con {
                datatype: d,
                args: xs,
            },
            Ty::Con {
                datatype: e,
                args: ys,
            },
        ) => d == e && same_tys(xs.as_slice(), ys.as_slice()),
        _ => false,
    }
}

/// Whether the lists have the same types in the same order. It takes no memory.
#[cycle(same_ty)]
pub fn same_tys(a: &[Ty], b: &[Ty]) -> bool
    ensures { IsTrue result ↔ (a.now ≡ b.now) }
{
    if a.len() != b.len() {
        return false;
    }
    for i in 0..a.len() {
        if !same_ty(&a[i], &b[i]) {
            return false;
        }
    }
    true
}

/// Whether the functions are one, with their types. It takes no memory.
pub fn same_fun(a: &Fun, b: &Fun) -> bool
    ensures { IsTrue result ↔ (a.now ≡ b.now) }
{
    a.head == b.head && same_tys(a.types.as_slice(), b.types.as_slice())
}

/// Whether the lists have the same functions in the same order. It takes no memory.
pub fn same_funs(a: &[Fun], b: &[Fun]) -> bool
    ensures { IsTrue result ↔ (a.now ≡ b.now) }
{
    if a.len() != b.len() {
        return false;
    }
    for i in 0..a.len() {
        if !same_fun(&a[i], &b[i]) {
            return false;
        }
    }
    true
}

/// Whether the terms are one: the same variables, numbers, constructors, types, functions, fields and arms.
/// It takes no memory; its calls nest as deep as the terms are alike.
#[cycle(same_term)]
pub fn same_term(a: &Term, b: &Term) -> bool
    ensures { IsTrue result ↔ (a.now ≡ b.now) }
{
    match (a, b) {
        (Term::Free(m), Term::Free(n)) => m == n,
        (Term::Bound(m), Term::Bound(n)) => m == n,
        (Term::Lit(v), Term::Lit(w)) => v == w,
        (
            Term::Con {
                datatype: d,
                con: k,
                types: ts,
                fields: xs,
            },
            Term::Con {
                datatype: e,
                con: l,
                types: us,
                fields: ys,
            },
        ) => {
            d == e
                && k == l
                && same_tys(ts.as_slice(), us.as_slice())
                && same_terms(xs.as_slice(), ys.as_slice())
        }
        (
            Term::Call {
                fun: f,
                funs: fs,
                args: xs,
            },
            Term::Call {
                fun: g,
                funs: gs,
                args: ys,
            },
        ) => {
            same_fun(f, g)
                && same_funs(fs.as_slice(), gs.as_slice())
                && same_terms(xs.as_slice(), ys.as_slice())
        }
        (
            Term::Match {
                on: s,
                datatype: d,
                types: ts,
                arms: xs,
            },
            Term::Match {
                on: t,
                datatype: e,
                types: us,
                arms: ys,
            },
        ) => {
            d == e
                && same_term(s.get(), t.get())
                && same_tys(ts.as_slice(), us.as_slice())
                && same_terms(xs.as_slice(), ys.as_slice())
        }
        _ => false,
    }
}

/// Whether the lists have the same terms in the same order. It takes no memory.
#[cycle(same_term)]
pub fn same_terms(a: &[Term], b: &[Term]) -> bool
    ensures { IsTrue result ↔ (a.now ≡ b.now) }
{
    if a.len() != b.len() {
        return false;
    }
    for i in 0..a.len() {
        if !same_term(&a[i], &b[i]) {
            return false;
        }
    }
    true
}
