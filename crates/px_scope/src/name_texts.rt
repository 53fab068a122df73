//! Texts whose names break a rule of scope, and texts whose names break none.
use crate::ScopeKind;
use crate::ScopeKind::{Later, Repeated, Unknown, WrongPlace};

/// Texts with a name that breaks a rule, with the rule and the name's place: each kind in several ways, and texts with two
/// faults that tell the order of kinds and of places.
pub(crate) const FAULTS: [(&[u8], ScopeKind, u32); 74] = [
    (b"def f(): Bool { g() }", Unknown, 16),
    (b"def f(a: Nat): Bool { True }", Unknown, 9),
    (b"def f(): Bool { K }", Unknown, 16),
    (b"def f(a: Bool): Bool { match a { K => a } }", Unknown, 33),
    (b"data L<A> { N, C(B) }", Unknown, 17),
    (
        b"def f<A>(a: A): A { a } def g(a: A): Bool { True }",
        Unknown,
        33,
    ),
    (
        b"def f(a: Bool): Bool { True } def g(b: Bool): Bool { a }",
        Unknown,
        53,
    ),
    (b"claim f: comm", Unknown, 6),
    (b"replica r: Bool from True by f", Unknown, 29),
    (b"replica r: Bool from x by weq", Unknown, 21),
    (b"lemma l(a: Bool): f(a) = a", Unknown, 18),
    (
        b"def m(g: fn(Bool) -> Bool, a: Bool): Bool { g(a) } def f(a: Bool): Bool { m(h, a) }",
        Unknown,
        76,
    ),
    (
        b"def m(g: fn(Bool) -> Bool, a: Bool): Bool { g(a) } def f(a: Bool): Bool { m(K, a) }",
        Unknown,
        76,
    ),
    (b"def f(): Bool { g() } def g(): Bool { True }", Later, 16),
    (b"data A { K(B) } data B { L }", Later, 11),
    (b"def f(): Bool { K } data A { K }", Later, 16),
    (
        b"def f(a: Bool): Bool { match a { K => a } } data A { K }",
        Later,
        33,
    ),
    (
        b"claim f: comm def f(a: Bool, b: Bool): Bool { a }",
        Later,
        6,
    ),
    (
        b"replica r: Bool from f by weq def f(): Bool { True }",
        Later,
        21,
    ),
    (
        b"replica r: Bool from True by f def f(a: Bool, b: Bool): Bool { a }",
        Later,
        29,
    ),
    (
        b"def m(g: fn(Bool) -> Bool, a: Bool): Bool { g(a) } def f(a: Bool): Bool { m(h, a) } def h(a: Bool): Bool { a }",
        Later,
        76,
    ),
    (b"data Bool { T }", Repeated, 5),
    (b"data Word { T }", Repeated, 5),
    (b"data A { True }", Repeated, 9),
    (b"data A { K, K }", Repeated, 12),
    (b"data A { K } data B { K }", Repeated, 22),
    (b"data P<P> { B }", Repeated, 7),
    (b"data P<A, A> { B }", Repeated, 10),
    (b"def f<Bool>(): Bool { True }", Repeated, 6),
    (b"def wle(): Bool { True }", Repeated, 4),
    (
        b"def f(): Bool { True } lemma f(): True = True",
        Repeated,
        29,
    ),
    (
        b"def f(): Bool { True } replica f: Bool from True by weq",
        Repeated,
        31,
    ),
    (b"def f(a: Bool, a: Bool): Bool { a }", Repeated, 15),
    (
        b"data N { Z, S(N) } def f(a: N): N { match a { Z => a, S(a) => a } }",
        Repeated,
        56,
    ),
    (
        b"data P { P(Bool, Bool) } def f(a: P): Bool { match a { P(x, x) => x } }",
        Repeated,
        60,
    ),
    (
        b"def f(a: Bool, b: Bool): Bool with comm, comm { a }",
        Repeated,
        41,
    ),
    (
        b"def f(g: fn(Bool, Bool) -> Bool with idem, idem, a: Bool): Bool { a }",
        Repeated,
        43,
    ),
    (
        b"def f(a: Bool, b: Bool): Bool with comm { a } claim f: idem, comm",
        Repeated,
        61,
    ),
    (
        b"def f(a: Bool, b: Bool): Bool { a } claim f: idem claim f: idem",
        Repeated,
        59,
    ),
    (
        b"def f(a: Bool, g: fn(Bool) -> Bool): Bool { a }",
        WrongPlace,
        15,
    ),
    (b"def f(a: Bool): Bool { a(True) }", WrongPlace, 23),
    (
        b"data N { Z, S(N) } def f(a: N): N { match a { Z => a, S(p) => p() } }",
        WrongPlace,
        62,
    ),
    (
        b"def f(): Bool { True } def g(): Bool { f }",
        WrongPlace,
        39,
    ),
    (b"def f(): Bool { f }", WrongPlace, 16),
    (
        b"def f(g: fn(Bool) -> Bool, a: Bool): Bool { g }",
        WrongPlace,
        44,
    ),
    (b"def f(): Bool { wle }", WrongPlace, 16),
    (b"lemma l(): l() = True", WrongPlace, 11),
    (
        b"replica r: Bool from True by weq def f(): Bool { r() }",
        WrongPlace,
        49,
    ),
    (
        b"def m(g: fn(Bool) -> Bool, a: Bool): Bool { g(a) } def f(a: Bool): Bool { m(a, a) }",
        WrongPlace,
        76,
    ),
    (
        b"def m(g: fn(Bool) -> Bool, a: Bool): Bool { g(a) } def f(a: Bool): Bool { m(f(a), a) }",
        WrongPlace,
        76,
    ),
    (
        b"def m(g: fn(Bool) -> Bool, a: Bool): Bool { g(a) } def f(a: Bool): Bool { m(f, a) }",
        WrongPlace,
        76,
    ),
    (
        b"def m(g: fn(Bool) -> Bool, a: Bool): Bool { g(a) } def f(a: Bool): Bool { m(m, a) }",
        WrongPlace,
        76,
    ),
    (
        b"def m(g: fn(Bool) -> Bool, a: Bool): Bool { g(a) } def f(a: Bool): Bool { m(1, a) }",
        WrongPlace,
        76,
    ),
    (
        b"def m(g: fn(Bool) -> Bool, a: Bool): Bool { g(a) } def f(a: Bool): Bool { m(True, a) }",
        WrongPlace,
        76,
    ),
    (
        b"def m(g: fn(Bool) -> Bool, a: Bool): Bool { g(a) } def f(a: Bool): Bool { m(match a { True => a, False => a }, a) }",
        WrongPlace,
        76,
    ),
    (b"data R<A> { K(R<Word>) }", WrongPlace, 14),
    (b"data R<A> { K(R<R<A>>) }", WrongPlace, 14),
    (b"data R<A, B> { K(R<B, A>) }", WrongPlace, 17),
    (b"data R<A> { K(R) }", WrongPlace, 14),
    (b"claim wle: comm", WrongPlace, 6),
    (b"lemma l(): True = True claim l: comm", WrongPlace, 29),
    (
        b"def f(): Bool { True } replica r: Bool from f by weq",
        WrongPlace,
        44,
    ),
    (
        b"replica r: Bool from match True { True => True, False => False } by weq",
        WrongPlace,
        21,
    ),
    (
        b"lemma l(): True = True replica r: Bool from True by l",
        WrongPlace,
        52,
    ),
    (
        b"def m(g: fn(Bool) -> Bool, a: Bool): Bool { g(a) } replica r: Bool from True by weq(m)",
        WrongPlace,
        84,
    ),
    (b"def f(a: Nat, a: Bool): Bool { a }", Unknown, 9),
    (b"def f(a: Bool, a: Nat): Bool { a }", Repeated, 15),
    (
        b"def f(a: Bool, a: fn(Bool) -> Bool): Bool { a }",
        Repeated,
        15,
    ),
    (b"def f(a: Bool, a: Bool): Bool { g() }", Repeated, 15),
    (
        b"def f(a: Bool): Bool { match g() { True => h(), False => a } }",
        Unknown,
        29,
    ),
    (b"data R<A> { K(R<B>) }", WrongPlace, 14),
    (b"data A { K(B) } data B { True }", Later, 11),
    (b"claim f: comm, comm", Unknown, 6),
    (
        b"replica r: Bool from r0 by r0 def r0(a: Bool, b: Bool): Bool { a }",
        Later,
        21,
    ),
];

/// Texts whose names break no rule.
pub(crate) const LAWFUL: [&[u8]; 0] = [];
