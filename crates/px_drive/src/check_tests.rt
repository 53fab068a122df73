//! Programs of the whole language: what `check` prints of each, or the line that refuses it.

use crate::tests::{CHECK, Call, REPLAY, expect};
use std::alloc::{AllocError, Global};
use std::test::Fail;

/// Programs, and what `check` prints of each.
const CHECKED: [(&[u8], &str); 11] = [
    (
        b"data Opt<A> { None, Some(A) }\n\
def first<A>(a: Opt<A>, b: Opt<A>): Opt<A> with idem { match a { None => b, Some(x) => a } }\n",
        "checked: datatypes 1, definitions 1, obligations 1\n",
    ),
    (
        b"data Nat { Z, S(Nat) }\n\
def pred(a: Nat): Nat { match a { Z => Z, S(p) => p } }\n\
def max(a: Nat, b: Nat): Nat with comm {\n\
match a { Z => b, S(p) => match b { Z => a, S(q) => S(max(p, q)) } }\n\
}\n",
        "checked: datatypes 1, definitions 2, obligations 1\n",
    ),
    (
        b"data List<A> { Nil, Cons(A, List<A>) }\n\
def union(a: List<Word>, b: List<Word>): List<Word> with comm, idem, assoc {\n\
match a {\n\
Nil => b,\n\
Cons(x, xs) => match b {\n\
Nil => a,\n\
Cons(y, ys) => match wle(x, y) {\n\
True => match wle(y, x) {\n\
True => Cons<Word>(x, union(xs, ys)),\n\
False => Cons<Word>(x, union(xs, b))\n\
},\n\
False => Cons<Word>(y, union(a, ys))\n\
}\n\
}\n\
}\n\
}\n\
replica s: List<Word> from Nil<Word> by union\n",
        "checked: datatypes 1, definitions 1, obligations 3\n",
    ),
    (
        b"data Map<V> { Empty, Bind(Word, V, Map<V>) }\n\
def wmax(a: Word, b: Word): Word with comm, assoc, sel { match wle(a, b) { False => a, True => b } }\n\
def join<V>(f: fn(V, V) -> V with comm, assoc, idem, a: Map<V>, b: Map<V>): Map<V> with comm, idem, assoc {\n\
match a {\n\
Empty => b,\n\
Bind(x, u, xs) => match b {\n\
Empty => a,\n\
Bind(y, v, ys) => match wle(x, y) {\n\
True => match wle(y, x) {\n\
True => Bind<V>(x, f(u, v), join<V>(f, xs, ys)),\n\
False => Bind<V>(x, u, join<V>(f, xs, b))\n\
},\n\
False => Bind<V>(y, v, join<V>(f, a, ys))\n\
}\n\
}\n\
}\n\
}\n\
lemma both(a: Map<Word>, b: Map<Word>): join<Word>(wmax, a, b) = join<Word>(wmax, b, a)\n\
replica g: Map<Word> from Empty<Word> by join<Word>(wmax)\n",
        "checked: datatypes 1, definitions 2, obligations 7\n",
    ),
    (
        b"def wmax(a: Word, b: Word): Word with comm, assoc, sel { match wle(a, b) { False => a, True => b } }\n\
def twice(f: fn(Word, Word) -> Word with idem, a: Word): Word { f(a, a) }\n\
lemma keep(f: fn(Word, Word) -> Word with idem, a: Word): twice(f, a) = a\n\
lemma back(a: Word): twice(wmax, a) = a\n",
        "checked: datatypes 0, definitions 2, obligations 5\n",
    ),
    (
        b"lemma turn(f: fn(Word, Word) -> Word with comm, a: Word, b: Word, c: Word): f(f(a, b), c) = f(c, f(b, a))\n",
        "checked: datatypes 0, definitions 0, obligations 1\n",
    ),
    (
        b"def big(): Word { 18446744073709551615 }",
        "checked: datatypes 0, definitions 1, obligations 0\n",
    ),
    (
        b"data Nat { Z, S(Nat) }\n",
        "checked: datatypes 1, definitions 0, obligations 0\n",
    ),
    (
        b"def f(a: Bool, b: Bool): Bool with assoc { a }",
        "checked: datatypes 0, definitions 1, obligations 1\n",
    ),
    (
        b"def f(a: Bool, b: Bool, c: Bool, d: Bool, e: Bool, g: Bool, h: Bool, i: Bool): Bool with comm { a }",
        "checked: datatypes 0, definitions 1, obligations 1\n",
    ),
    (
        b"data P<A, B> { Two(A, B) }\n\
data Q0<A> { E0(A) }\n\
data Q1<A> { E1(Q0<P<A, A>>) }\n\
data Q2<A> { E2(Q1<P<A, A>>) }\n\
data Q3<A> { E3(Q2<P<A, A>>) }\n\
data Q4<A> { E4(Q3<P<A, A>>) }\n\
data Q5<A> { E5(Q4<P<A, A>>) }\n\
data Q6<A> { E6(Q5<P<A, A>>) }\n\
data Q7<A> { E7(Q6<P<A, A>>) }\n\
data Q8<A> { E8(Q7<P<A, A>>) }\n\
data Q9<A> { E9(Q8<P<A, A>>) }\n\
data Q10<A> { E10(Q9<P<A, A>>) }\n\
data Q11<A> { E11(Q10<P<A, A>>) }\n\
data Q12<A> { E12(Q11<P<A, A>>) }\n\
data Q13<A> { E13(Q12<P<A, A>>) }\n\
def f(x13: Q13<Word>): Bool { match x13 { E13(x12) => match x12 { E12(x11) => match x11 { E11(x10) => match x10 { E10(x9) => match x9 { E9(x8) => match x8 { E8(x7) => match x7 { E7(x6) => match x6 { E6(x5) => match x5 { E5(x4) => match x4 { E4(x3) => match x3 { E3(x2) => match x2 { E2(x1) => match x1 { E1(x0) => match x0 { E0(y) => True } } } } } } } } } } } } } } }\n",
        "checked: datatypes 15, definitions 1, obligations 0\n",
    ),
];

/// Programs of other types than truth values, and what `check` prints of each.
const OTHERS: [(&[u8], &str); 8] = [
    (
        b"data Nat { Z, S(Nat) }",
        "checked: datatypes 1, definitions 0, obligations 0\n",
    ),
    (
        b"lemma l(a: Bool): a = a",
        "checked: datatypes 0, definitions 0, obligations 1\n",
    ),
    (
        b"def f<A>(a: Bool): Bool { a }",
        "checked: datatypes 0, definitions 1, obligations 0\n",
    ),
    (
        b"def f(g: fn(Bool) -> Bool, a: Bool): Bool { a }",
        "checked: datatypes 0, definitions 1, obligations 0\n",
    ),
    (
        b"def f(a: Word): Bool { True }",
        "checked: datatypes 0, definitions 1, obligations 0\n",
    ),
    (
        b"def f(a: Bool): Word { 0 }",
        "checked: datatypes 0, definitions 1, obligations 0\n",
    ),
    (
        b"def f(a: Bool): Bool { a } def g(a: Bool): Bool { f(a) }",
        "checked: datatypes 0, definitions 2, obligations 0\n",
    ),
    (
        b"def f(): Bool { weq(1, 1) }",
        "checked: datatypes 0, definitions 1, obligations 0\n",
    ),
];

/// Programs that break a rule of typing, each rule at least three times, and the lines that refuse them.
const MISTYPED: [(&[u8], &str); 34] = [
    (
        b"def f(a: Bool): Word { a }",
        "source: type mismatch at 23\n",
    ),
    (
        b"def f(a: Word): Word { match a { True => a } }",
        "source: type mismatch at 29\n",
    ),
    (
        b"def f(a: Bool): Bool { match a { False => a, True => 5 } }",
        "source: type mismatch at 53\n",
    ),
    (
        b"data Nat { Z, S(Nat) }\n\
def isz(a: Nat): Bool { match a { Z => True, S(p) => Z } }\n\
def pick(a: Nat, b: Nat): Nat with idem { match isz(a) { False => a, True => b } }\n",
        "source: type mismatch at 76\n",
    ),
    (
        b"data Nat { Z, S(Nat) }\n\
data L { N, K(Word, L) }\n\
data O<A> { No, Yes(A) }\n\
def f(a: L, b: L): L with assoc, idem { match a { N => b, K(x, xs) => K(x, f(xs, x)) } }\n",
        "source: type mismatch at 154\n",
    ),
    (
        b"def f<A, B>(a: A, b: B): A { f<B, A>(a, b) }",
        "source: type mismatch at 29\n",
    ),
    (b"lemma l(a: Bool): a = 5", "source: type mismatch at 22\n"),
    (
        b"data Nat { Z, S(Nat) }\n\
def zig(a: Nat, b: Nat): Nat { match a { Z => b, S(p) => match b { Z => zig(p, Z(b)), S(q) => zig(S(a), q) } } }\n",
        "source: type arity at 102\n",
    ),
    (
        b"data Opt<A> { None, Some(A) }\n\
def first<A>(a: Opt<A>, b: Opt<Opt>): Opt<A> with idem { match a { None => b, Some(x) => a } }\n",
        "source: type arity at 61\n",
    ),
    (
        b"data Opt<A> { None, Some(A) }\n\
def first<A>(a: Opt<A>, b: Opt<A>): Opt<A> with idem { match Some { None => b, Some(x) => a } }\n",
        "source: type arity at 91\n",
    ),
    (
        b"data Opt<A> { None, Some(A) }\n\
def first<A>(a: Opt<A>, b: Opt<A>): Opt<A> with idem { match a { None => b, None(x) => a } }\n",
        "source: type arity at 106\n",
    ),
    (
        b"data Opt<A> { None, Some(A) }\n\
def first<A>(a: Opt<A>, b: Opt<A>): A<A> with idem { match a { None => b, Some(x) => a } }\n",
        "source: type arity at 66\n",
    ),
    (
        b"def f(a: Bool): Bool { f(a, a) }",
        "source: type arity at 23\n",
    ),
    (
        b"def f(a: Bool): Bool { match a { False => a } }",
        "source: type arm-missing at 23\n",
    ),
    (
        b"data Opt<A> { None, Some(A) }\n\
def first<A>(a: Opt<A>, b: Opt<A>): Opt<A> with idem { match a { None => b } }\n",
        "source: type arm-missing at 85\n",
    ),
    (
        b"data Nat { Z, S(Nat) }\n\
def isz(a: Nat): Bool { match a { Z => True, S(p) => False } }\n\
def pick(a: Nat, b: Nat): Nat with idem { match isz(a) { False => a } }\n",
        "source: type arm-missing at 128\n",
    ),
    (
        b"def f(a: Bool): Bool { match a { False => a, False => a, True => a } }",
        "source: type arm-repeated at 45\n",
    ),
    (
        b"def or(a: Bool, b: Bool): Bool with comm, idem { match a { True => b, True => True } }\n",
        "source: type arm-repeated at 70\n",
    ),
    (
        b"data Nat { Z, S(Nat) }\n\
def isz(a: Nat): Bool { match a { Z => True, S(p) => False } }\n\
def pick(a: Nat, b: Nat): Nat with idem { match isz(a) { False => a, False => b } }\n",
        "source: type arm-repeated at 155\n",
    ),
    (
        b"def left(a: Bool, b: Bool): Bool with assoc { a }\n\
def use(f: fn(Bool, Bool) -> Bool with idem, a: Bool): Bool { f(a, a) }\n\
def bad(a: Bool): Bool { use(left, a) }\n",
        "source: type lacks-property at 151\n",
    ),
    (
        b"def wmax(a: Word, b: Word): Word with comm, idem, sel { match wle(a, b) { False => a, True => b } }\n\
def twice(f: fn(Word, Word) -> Word with assoc, a: Word): Word { f(a, a) }\n\
lemma keep(f: fn(Word, Word) -> Word with idem, a: Word): twice(f, a) = a\n\
lemma back(a: Word): twice(wmax, a) = a\n",
        "source: type lacks-property at 239\n",
    ),
    (
        b"data O<A> { N, S(A) }\n\
def j<A>(f: fn(A, A) -> A with comm, assoc, idem, a: O<A>, b: O<A>): O<A> with comm, assoc, idem { a }\n\
def m(a: Word, b: Word): Word with comm, assoc { a }\n\
replica r: O<Word> from N<Word> by j<Word>(m)\n",
        "source: type lacks-property at 221\n",
    ),
    (
        b"def f(a: Bool): Bool with comm { a }",
        "source: type property-shape at 26\n",
    ),
    (
        b"def f(a: Bool, b: Bool, c: Bool, d: Bool, e: Bool, g: Bool, h: Bool, i: Bool): Bool with assoc { a }",
        "source: type property-shape at 89\n",
    ),
    (
        b"data Nat { Z, S(Nat) }\n\
data L { N, K(Word, L) }\n\
data O<A> { No, Yes(A) }\n\
def f(x: Word, y: Word): Bool with trans, antisym, sym { wle(y, x) }\n\
def g(a: Nat, b: Word): Bool with refl { match a { Z => True, S(p) => match b { Z => True, S(q) => g(p, q) } } }\n\
claim g: antisym\n",
        "source: type property-shape at 176\n",
    ),
    (
        b"def or(a: Bool, b: Bool): Bool { a }\n\
claim or: comm, trans, refl\n\
def g(a: Word, b: Word): Word { a }\n\
claim g: idem, refl",
        "source: type property-shape at 116\n",
    ),
    (
        b"lemma l(f: fn(Word, Bool) -> Word with comm, a: Word): a = a",
        "source: type property-shape at 39\n",
    ),
    (
        b"def or(a: Bool, b: Bool): Bool with comm, idem { match a { False => b, True => True } }\n\
replica s: Bool from False by or",
        "source: type not-join at 118\n",
    ),
    (
        b"def or(a: Bool, b: Bool): Bool with comm, assoc { match a { False => b, True => True } }\n\
replica s: Bool from True by or\n\
claim or: idem\n",
        "source: type not-join at 118\n",
    ),
    (
        b"replica s: Word from 5 by weq\n",
        "source: type not-join at 26\n",
    ),
    (
        b"def three(a: Bool, b: Bool, c: Bool): Bool with comm, assoc, idem { a }\n\
replica s: Bool from True by three\n",
        "source: type not-join at 101\n",
    ),
    (
        b"lemma l(a: Word, b: Word, c: Word, d: Word, e: Word, f: Word, g: Word, h: Word, i: Word): a = b\n",
        "source: type oversize at 6\n",
    ),
    (
        b"lemma l(a: Word): a = a => a = a => a = a => a = a => a = a => a = a => a = a => a = a => a = a => a = a\n",
        "source: type oversize at 6\n",
    ),
    (
        b"data P<A, B> { Two(A, B) }\n\
data Q0<A> { E0(A) }\n\
data Q1<A> { E1(Q0<P<A, A>>) }\n\
data Q2<A> { E2(Q1<P<A, A>>) }\n\
data Q3<A> { E3(Q2<P<A, A>>) }\n\
data Q4<A> { E4(Q3<P<A, A>>) }\n\
data Q5<A> { E5(Q4<P<A, A>>) }\n\
data Q6<A> { E6(Q5<P<A, A>>) }\n\
data Q7<A> { E7(Q6<P<A, A>>) }\n\
data Q8<A> { E8(Q7<P<A, A>>) }\n\
data Q9<A> { E9(Q8<P<A, A>>) }\n\
data Q10<A> { E10(Q9<P<A, A>>) }\n\
data Q11<A> { E11(Q10<P<A, A>>) }\n\
data Q12<A> { E12(Q11<P<A, A>>) }\n\
data Q13<A> { E13(Q12<P<A, A>>) }\n\
data Q14<A> { E14(Q13<P<A, A>>) }\n\
def f(x14: Q14<Word>): Bool { match x14 { E14(x13) => match x13 { E13(x12) => match x12 { E12(x11) => match x11 { E11(x10) => match x10 { E10(x9) => match x9 { E9(x8) => match x8 { E8(x7) => match x7 { E7(x6) => match x6 { E6(x5) => match x5 { E5(x4) => match x4 { E4(x3) => match x3 { E3(x2) => match x2 { E2(x1) => match x1 { E1(x0) => match x0 { E0(y) => True } } } } } } } } } } } } } } } }\n",
        "source: type oversize at 827\n",
    ),
];

/// Programs with more than one fault, and the line of the first.
const FAULTY_TWICE: [(&[u8], &str); 13] = [
    (
        b"replica s: Bool from 5 by wle\n",
        "source: type mismatch at 21\n",
    ),
    (
        b"replica s: Bool from True by wle\n",
        "source: type not-join at 29\n",
    ),
    (
        b"data O<A> { N, S(A) }\n\
def j<A>(f: fn(A, A) -> A with comm, assoc, idem, a: O<A>, b: O<A>): O<A> with comm, assoc, idem { a }\n\
def m(a: Word, b: Word): Word with comm, assoc, idem { a }\n\
replica r: O<Bool> from N<Bool> by j<Word>(m)\n",
        "source: type not-join at 219\n",
    ),
    (
        b"def f(a: Bool<Bool>): Bool with comm { 5 }",
        "source: type arity at 9\n",
    ),
    (
        b"def f(a: Bool): Bool with comm { 5 }",
        "source: type property-shape at 26\n",
    ),
    (
        b"def f(a: Bool): Bool { match a { False => 5 } }",
        "source: type arm-missing at 23\n",
    ),
    (
        b"def f(a: Bool): Bool { match a { False => a, False => 5 } }",
        "source: type arm-repeated at 45\n",
    ),
    (
        b"data Nat { Z, S(Nat) }\n\
def f(a: Bool): Bool { match a { False => a, Z => 5 } }",
        "source: type mismatch at 68\n",
    ),
    (
        b"data Nat { Z, S(Nat) }\n\
def f(a: Bool): Bool { match a { False => a, S => 5 } }",
        "source: type arity at 68\n",
    ),
    (
        b"def use(f: fn(Bool, Bool) -> Bool with idem, a: Bool): Bool { f(a, a) }\n\
def bad(a: Bool): Bool { use(wle, 5) }",
        "source: type mismatch at 101\n",
    ),
    (
        b"lemma l(a: Word, b: Word, c: Word, d: Word, e: Word, f: Word, g: Word, h: Word, i: Bool<Word>): a = True",
        "source: type oversize at 6\n",
    ),
    (
        b"data Nat { Z, S(Nat) }\n\
def f(a: Nat): Nat { f(a) }\n\
def g(a: Nat): Nat { True }",
        "source: type mismatch at 72\n",
    ),
    (
        b"data Nat { Z, S(Nat) }\n\
def f(a: Nat): Nat { f(a) }\n\
claim f: idem",
        "source: type property-shape at 60\n",
    ),
];

/// Programs in which a definition doesn't descend, and the lines that refuse them.
const ENDLESS: [(&[u8], &str); 4] = [
    (
        b"data Nat { Z, S(Nat) }\n\
def zig(a: Nat, b: Nat): Nat { match a { Z => b, S(p) => match b { Z => zig(p, S(b)), S(q) => zig(S(a), q) } } }\n",
        "source: descent definition 0 call 0\n",
    ),
    (
        b"data Nat { Z, S(Nat) }\n\
def swap(a: Nat, b: Nat): Nat { match a { Z => b, S(p) => swap(b, p) } }",
        "source: descent definition 0 call 0\n",
    ),
    (
        b"data Nat { Z, S(Nat) }\n\
data L { N, K(Word, L) }\n\
data O<A> { No, Yes(A) }\n\
def f(a: L, b: L): L with idem, assoc { match b { N => b, K(x, xs) => match b { N => a, K(y, ys) => match weq(x, y) { True => K(x, f(xs, b)), False => K(y, f(a, ys)) } } } }\n",
        "source: descent definition 0 call 1\n",
    ),
    (
        b"data Nat { Z, S(Nat) }\n\
data L { N, K(Word, L) }\n\
data O<A> { No, Yes(A) }\n\
def f(a: L, b: L): L with idem { match a { N => b, K(x, xs) => K(x, f(xs, b)) } }\n\
def g(a: L, b: L): L with idem { match a { N => b, K(x, xs) => K(x, g(a, b)) } }\n\
claim g: assoc\n",
        "source: descent definition 1 call 0\n",
    ),
];

#[test]
fn whole_programs_are_checked(rt: HostRuntime) -> Result<(), Fail> {
    for (program, printed) in CHECKED {
        expect(&rt, rt.alloc(), &Call { program, ..CHECK }, 0, printed, "")?;
    }
    Ok(())
}

#[test]
fn others_than_truth_values_are_replayed(rt: HostRuntime) -> Result<(), Fail> {
    for (program, printed) in OTHERS {
        expect(&rt, rt.alloc(), &Call { program, ..CHECK }, 0, printed, "")?;
        let (derivation, accepted): (&[u8], &str) = if program.starts_with(b"lemma") {
            (b"goal 0\nsame 0\n", "accepted 1\n")
        } else {
            (b"", "accepted 0\n")
        };
        let call = Call {
            program,
            derivation,
            ..REPLAY
        };
        expect(&rt, rt.alloc(), &call, 0, accepted, "")?;
    }
    Ok(())
}

#[test]
fn the_first_fault_is_told(rt: HostRuntime) -> Result<(), Fail> {
    for (program, line) in MISTYPED {
        expect(&rt, rt.alloc(), &Call { program, ..CHECK }, 3, "", line)?;
        expect(&rt, rt.alloc(), &Call { program, ..REPLAY }, 3, "", line)?;
    }
    for (program, line) in FAULTY_TWICE {
        expect(&rt, rt.alloc(), &Call { program, ..CHECK }, 3, "", line)?;
        expect(&rt, rt.alloc(), &Call { program, ..REPLAY }, 3, "", line)?;
    }
    for (program, line) in ENDLESS {
        expect(&rt, rt.alloc(), &Call { program, ..CHECK }, 3, "", line)?;
        expect(&rt, rt.alloc(), &Call { program, ..REPLAY }, 3, "", line)?;
    }
    Ok(())
}

/// A program of one definition that gives a number in unary, so many constructors deep.
fn unary(alloc: Global, number: u32) -> Result<String, AllocError> {
    let mut text = String::from_str(alloc, "data Nat { Z, S(Nat) }\ndef f(): Nat { ")?;
    for _ in 0..number {
        text.push_str("S(")?;
    }
    text.push_str("Z")?;
    for _ in 0..number {
        text.push_str(")")?;
    }
    text.push_str(" }")?;
    Ok(text)
}

#[test]
fn terms_nest_within_the_limit(rt: HostRuntime) -> Result<(), Fail> {
    let printed = "checked: datatypes 1, definitions 1, obligations 0\n";
    let deepest = unary(rt.alloc(), 199)?;
    let call = Call {
        program: deepest.as_bytes(),
        ..CHECK
    };
    expect(&rt, rt.alloc(), &call, 0, printed, "")?;
    let deeper = unary(rt.alloc(), 200)?;
    let call = Call {
        program: deeper.as_bytes(),
        ..CHECK
    };
    expect(&rt, rt.alloc(), &call, 3, "", "source: parse at 437\n")
}
