//! Each rule of derivations, tried on small programs.
use crate::tests::{Call, REPLAY, expect};
use std::test::Fail;

/// A program, a derivation, what is printed where it is accepted, and what is told where it is not.
const ROWS: [(&[u8], &[u8], &str, &str); 23] = [
    // Fields of one constructor.
    (
        b"data Nat { Z, S(Nat) }\nlemma l(a: Nat, b: Nat): S(a) = S(b) => a = b",
        b"goal 0\ninject 0\nstep a0l / fact 1 lr\nsame 0\n",
        "accepted 1\n",
        "",
    ),
    // No fields.
    (
        b"data Nat { Z, S(Nat) }\nlemma l(a: Nat): Z = Z => a = a",
        b"goal 0\ninject 0\nsame 0\n",
        "accepted 1\n",
        "",
    ),
    // Heads are not one.
    (
        b"data Nat { Z, S(Nat) }\nlemma l(a: Nat): Z = S(a) => a = Z",
        b"goal 0\ninject 0\nsame 0\n",
        "",
        "rejected: line 2 rule\n",
    ),
    // Truth values clash.
    (
        b"data Nat { Z, S(Nat) }\nlemma l(a: Nat): False = True => a = Z",
        b"goal 0\nclash 0\n",
        "accepted 1\n",
        "",
    ),
    // Words clash.
    (
        b"data Nat { Z, S(Nat) }\nlemma l(a: Nat): 1 = 2 => a = Z",
        b"goal 0\nclash 0\n",
        "accepted 1\n",
        "",
    ),
    // Constructors clash.
    (
        b"data Nat { Z, S(Nat) }\nlemma l(a: Nat): Z = S(a) => a = Z",
        b"goal 0\nclash 0\n",
        "accepted 1\n",
        "",
    ),
    // One constructor.
    (
        b"data Nat { Z, S(Nat) }\nlemma l(a: Nat): S(Z) = S(a) => a = Z",
        b"goal 0\nclash 0\n",
        "",
        "rejected: line 2 rule\n",
    ),
    // No such fact.
    (
        b"data Nat { Z, S(Nat) }\nlemma l(a: Nat): Z = S(a) => a = Z",
        b"goal 0\nclash 1\n",
        "",
        "rejected: line 2 rule\n",
    ),
    // Conn of wle.
    (
        b"lemma l(a: Word, b: Word): wle(a, b) = False => wle(b, a) = True",
        b"goal 0\nnote wle.conn [] [] [$0,$1]\nstep a0l / fact 0 lr\nsame 0\nstep a0l / fact 1 lr\nsame 0\n",
        "accepted 1\n",
        "",
    ),
    // Sym of weq.
    (
        b"lemma l(a: Word, b: Word): weq(a, b) = True => weq(b, a) = True",
        b"goal 0\nnote weq.sym [] [] [$0,$1]\nstep a0l / fact 0 lr\nsame 0\nstep a0l / fact 1 lr\nsame 0\n",
        "accepted 1\n",
        "",
    ),
    // Sym of wle.
    (
        b"lemma l(a: Word, b: Word): wle(a, b) = True => wle(b, a) = True",
        b"goal 0\nnote wle.sym [] [] [$0,$1]\n",
        "",
        "rejected: line 2 rule\n",
    ),
    // Idem by sel.
    (
        b"def pick(a: Bool, b: Bool): Bool with sel { a }\nlemma l(a: Bool): pick(a, a) = a",
        b"goal 0\nstep a0l / unfold\nsame 0\ngoal 1\nnote pick.idem [] [] [$0]\nstep a0l / fact 0 lr\nsame 0\n",
        "accepted 2\n",
        "",
    ),
    // A later claim.
    (
        b"def pick(a: Bool, b: Bool): Bool { a }\nlemma l(a: Bool): pick(a, a) = a\nclaim pick: idem",
        b"goal 0\nnote pick.idem [] [] [$0]\n",
        "",
        "rejected: line 2 rule\n",
    ),
    // Cases of a type with a parameter.
    (
        b"data Opt<A> { None, Some(A) }\ndef first<A>(a: Opt<A>, b: Opt<A>): Opt<A> with idem { match a { None => b, Some(x) => a } }",
        b"goal 0\ncase 0\nstep a0l / unfold\nstep a0l / select\nsame 0\nstep a0l / unfold\nstep a0l / select\nsame 0\n",
        "accepted 1\n",
        "",
    ),
    // Cases of a term.
    (
        b"data Nat { Z, S(Nat) }\ndef isz(a: Nat): Bool { match a { Z => True, S(p) => False } }\ndef pick(a: Nat, b: Nat): Nat with idem { match isz(a) { False => a, True => b } }",
        b"goal 0\nstep a0l / unfold\nsplit isz($0)\nstep a0l /0 fact 0 lr\nstep a0l / select\nsame 0\nstep a0l /0 fact 0 lr\nstep a0l / select\nsame 0\n",
        "accepted 1\n",
        "",
    ),
    // Fields of patterns in patterns.
    (
        b"data Nat { Z, S(Nat) }\ndata Pair { P(Nat, Nat) }\ndef f(a: Pair): Nat { match a { P(x, y) => match x { Z => y, S(p) => match y { Z => p, S(q) => q } } } }\nlemma l(a: Nat, b: Nat): f(P(S(a), S(b))) = b\nlemma m(a: Nat): f(P(S(a), Z)) = a",
        b"goal 0\nstep a0l / unfold\nstep a0l / select\nstep a0l / select\nstep a0l / select\nsame 0\ngoal 1\nstep a0l / unfold\nstep a0l / select\nstep a0l / select\nstep a0l / select\nsame 0\n",
        "accepted 2\n",
        "",
    ),
    // An assumed property.
    (
        b"def twice(f: fn(Word, Word) -> Word with idem, a: Word): Word { f(a, a) }\nlemma l(f: fn(Word, Word) -> Word with idem, a: Word): twice(f, a) = a",
        b"goal 0\nstep a0l / unfold\nnote %0.idem [] [] [$0]\nstep a0l / fact 0 lr\nsame 0\n",
        "accepted 1\n",
        "",
    ),
    // One that is not assumed.
    (
        b"def twice(f: fn(Word, Word) -> Word with idem, a: Word): Word { f(a, a) }\nlemma l(f: fn(Word, Word) -> Word with idem, a: Word): twice(f, a) = a",
        b"goal 0\nstep a0l / unfold\nnote %0.comm [] [] [$0,$0]\n",
        "",
        "rejected: line 3 rule\n",
    ),
    // Literals are compared.
    (
        b"lemma l(): wle(1, 2) = True",
        b"goal 0\nstep a0l / compare\nsame 0\n",
        "accepted 1\n",
        "",
    ),
    // Without a frame.
    (
        b"data Nat { Z, S(Nat) }\nlemma l(a: Nat): a = a",
        b"goal 0\nhyp [$0]\n",
        "",
        "rejected: line 2 rule\n",
    ),
    // An equal term.
    (
        b"data Nat { Z, S(Nat) }\nlemma l(a: Nat): a = a",
        b"goal 0 on 0\nhyp [$0]\n",
        "",
        "rejected: line 2 rule\n",
    ),
    // A proper part.
    (
        b"data Nat { Z, S(Nat) }\nlemma l(a: Nat): a = a",
        b"goal 0 on 0\ncase 0\nsame 0\nhyp [$1]\nsame 0\n",
        "accepted 1\n",
        "",
    ),
    // No part.
    (
        b"data Nat { Z, S(Nat) }\nlemma l(a: Nat): a = a",
        b"goal 0 on 0\ncase 0\nsame 0\nhyp [S(S($1))]\nsame 0\n",
        "",
        "rejected: line 4 rule\n",
    ),
];

/// A program whose derivation goes by its hypothesis.
const MAX: &[u8] =
    b"data Nat { Z, S(Nat) }\ndef pred(a: Nat): Nat { match a { Z => Z, S(p) => p } }\n\
def max(a: Nat, b: Nat): Nat with comm { match a { Z => b, S(p) => match b { Z => a, S(q) => S(max(p, q)) } } }";

/// The lines of that derivation before its hypothesis.
const FRONT: &str =
    "goal 0 on 0 1\ncase 0\ncase 1\nsame 0\nstep a0l / unfold\nstep a0l / select\nstep a0r / unfold\n\
step a0r / select\nstep a0r / select\nsame 0\ncase 1\nstep a0l / unfold\nstep a0l / select\nstep a0l / select\n\
step a0r / unfold\nstep a0r / select\nsame 0\nstep a0l / unfold\nstep a0l / select\nstep a0l / select\n\
step a0r / unfold\nstep a0r / select\nstep a0r / select\n";

/// Terms of the hypothesis, the status, what is printed and what is told: the terms are proper parts, none is
/// proper, and one is a call and so no part.
const HYPOTHESES: [(&str, u8, &str, &str); 3] = [
    ("$2,$3", 0, "accepted 1\n", ""),
    ("S($2),S($3)", 5, "", "rejected: line 24 rule\n"),
    ("pred(S($2)),$3", 5, "", "rejected: line 24 rule\n"),
];

#[test]
fn each_rule_applies_where_it_is_said_to(rt: HostRuntime) -> Result<(), Fail> {
    for (program, derivation, printed, told) in ROWS {
        let call = Call {
            program,
            derivation,
            ..REPLAY
        };
        let wanted = if printed.is_empty() { 5 } else { 0 };
        expect(&rt, rt.alloc(), &call, wanted, printed, told)?;
    }
    Ok(())
}

#[test]
fn the_hypothesis_is_of_proper_parts(rt: HostRuntime) -> Result<(), Fail> {
    let alloc = rt.alloc();
    for (terms, wanted, printed, told) in HYPOTHESES {
        let text = format!(in alloc; "{FRONT}hyp [{terms}]\nstep a0l /0 fact 0 lr\nsame 0\n")?;
        let call = Call {
            program: MAX,
            derivation: text.as_bytes(),
            ..REPLAY
        };
        expect(&rt, alloc, &call, wanted, printed, told)?;
    }
    Ok(())
}
