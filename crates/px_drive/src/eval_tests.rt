//! `eval`: its lines, its arguments, its values, and its number of calls.
use crate::tests::{CHECK, Call, expect};
use std::alloc::Global;
use std::process::Abort;
use std::test::Fail;

/// Numbers by hand, and their maximum.
const MAX: &[u8] =
    b"data Nat { Z, S(Nat) }\ndef pred(a: Nat): Nat { match a { Z => Z, S(p) => p } }\n\
def max(a: Nat, b: Nat): Nat with comm { match a { Z => b, S(p) => match b { Z => a, S(q) => S(max(p, q)) } } }\n";

/// Words, a function parameter, a type parameter, and a lemma.
const WORDS: &[u8] =
    b"data Pair<A, B> { Pair(A, B) }\ndef wmax(a: Word, b: Word): Word with comm, idem { match wle(a, b) { False => a, True => b } }\n\
def twice(f: fn(Word, Word) -> Word with idem, a: Word): Word { f(a, a) }\ndef same<A>(a: A): A { a }\n\
def both(a: Word): Word { twice(wmax, a) }\ndef swap(p: Pair<Word, Bool>): Pair<Bool, Word> { match p { Pair(x, y) => Pair<Bool, Word>(y, x) } }\n\
def seven(): Word { 7 }\nlemma least(a: Word): wmax(a, a) = a\n";

/// The line that is told of words that are no plain line.
const USAGE: &str =
    "usage: propel check F | replay F D | eval F NAME V.. [--calls N] | run F D S [--calls N]\n";

/// Words after the file, by the program, with the status, what is printed and what is told.
const ROWS: [(&[u8], &[&str], u8, &str, &str); 35] = [
    (
        MAX,
        &["max", "S(S(Z))", "S(Z)", "--calls", "2"],
        0,
        "S(S(Z))\ncalls 2\n",
        "",
    ),
    (
        MAX,
        &["max", "S(S(Z))", "S(Z)", "--calls", "1"],
        7,
        "",
        "spent: event 0\n",
    ),
    (
        MAX,
        &["max", "S(S(Z))", "S(Z)"],
        0,
        "S(S(Z))\ncalls 2\n",
        "",
    ),
    (MAX, &["pred", " S ( Z ) "], 0, "Z\ncalls 1\n", ""),
    // Built-ins aren't counted, and a function argument counts where it is called.
    (
        WORDS,
        &["wmax", "3", "5", "--calls", "1"],
        0,
        "5\ncalls 1\n",
        "",
    ),
    (
        WORDS,
        &["both", "18446744073709551615"],
        0,
        "18446744073709551615\ncalls 3\n",
        "",
    ),
    (
        WORDS,
        &["swap", "Pair(007,True)"],
        0,
        "Pair(True, 7)\ncalls 1\n",
        "",
    ),
    (WORDS, &["seven"], 0, "7\ncalls 1\n", ""),
    (
        WORDS,
        &["seven", "--calls", "1000000000"],
        0,
        "7\ncalls 1\n",
        "",
    ),
    // The arguments, in the order of their causes.
    (MAX, &["min", "Z"], 13, "", "arguments: no-such-name 0\n"),
    (
        MAX,
        &["wle", "1", "2"],
        13,
        "",
        "arguments: no-such-name 0\n",
    ),
    (
        WORDS,
        &["least", "1"],
        13,
        "",
        "arguments: no-such-name 0\n",
    ),
    (WORDS, &["Pair", "1"], 13, "", "arguments: no-such-name 0\n"),
    (WORDS, &["twice", "1"], 13, "", "arguments: not-plain 0\n"),
    (WORDS, &["same"], 13, "", "arguments: not-plain 0\n"),
    (MAX, &["max", "Z"], 13, "", "arguments: count 0\n"),
    (MAX, &["max", "Z", "Z", "!"], 13, "", "arguments: count 0\n"),
    (
        MAX,
        &["max", "Z", "S(3)"],
        13,
        "",
        "arguments: bad-value 1\n",
    ),
    (
        MAX,
        &["max", "", "S(3)"],
        13,
        "",
        "arguments: bad-value 0\n",
    ),
    (
        WORDS,
        &["wmax", "1", "18446744073709551616"],
        13,
        "",
        "arguments: bad-value 1\n",
    ),
    (
        WORDS,
        &["wmax", "1", "2 3"],
        13,
        "",
        "arguments: bad-value 1\n",
    ),
    (
        WORDS,
        &["swap", "Pair(1, 2)", "--calls", "1"],
        13,
        "",
        "arguments: bad-value 0\n",
    ),
    // The program is refused before its arguments.
    (b"def f(", &["g"], 3, "", "source: parse at 6\n"),
    // Words that are no plain line.
    (MAX, &[], 2, "", USAGE),
    (MAX, &[""], 2, "", USAGE),
    (MAX, &["-max", "Z"], 2, "", USAGE),
    (MAX, &["pred", "Z", "--calls", "0"], 2, "", USAGE),
    (MAX, &["pred", "Z", "--calls", "1000000001"], 2, "", USAGE),
    (MAX, &["pred", "Z", "--calls", "01"], 2, "", USAGE),
    (MAX, &["pred", "Z", "--calls", "+1"], 2, "", USAGE),
    (MAX, &["pred", "Z", "--calls"], 2, "", USAGE),
    (MAX, &["pred", "Z", "--steps", "1"], 2, "", USAGE),
    (MAX, &["pred", "--calls", "1", "Z"], 2, "", USAGE),
    (
        MAX,
        &["pred", "Z", "--calls", "1", "--calls", "1"],
        2,
        "",
        USAGE,
    ),
    (MAX, &["pred", "Z", "-1"], 2, "", USAGE),
];

/// Makes the call of `eval` with these words after the file.
fn expect_eval(
    rt: &impl Abort,
    alloc: Global,
    row: (&[u8], &[&str]),
    wanted: (u8, &str, &str),
) -> Result<(), Fail> {
    let (program, after) = row;
    let (status, printed, told) = wanted;
    let mut words = Vec::new(alloc);
    words.push("eval")?;
    words.push("p")?;
    words.extend_from_slice(after)?;
    let call = call_of(program, words.as_slice());
    expect(rt, alloc, &call, status, printed, told)
}

/// The call with these words on a program.
fn call_of<'a>(program: &'a [u8], words: &'a [&'a str]) -> Call<'a> {
    Call {
        words,
        program,
        ..CHECK
    }
}

#[test]
fn each_call_has_its_value(rt: HostRuntime) -> Result<(), Fail> {
    for (program, after, status, printed, told) in ROWS {
        expect_eval(&rt, rt.alloc(), (program, after), (status, printed, told))?;
    }
    Ok(())
}

/// So many `S` around `Z`.
fn number(alloc: Global, size: usize) -> Result<String, Fail> {
    let mut text = String::new(alloc);
    for _ in 0..size {
        text.push_str("S(")?;
    }
    text.push_str("Z")?;
    for _ in 0..size {
        text.push_str(")")?;
    }
    Ok(text)
}

#[test]
fn values_are_as_deep_as_they_have_nodes(rt: HostRuntime) -> Result<(), Fail> {
    let alloc = rt.alloc();
    for size in [40_000, 65_535] {
        let value = number(alloc, size)?;
        let less = number(alloc, size - 1)?;
        let printed = format!(in alloc; "{less}\ncalls 1\n")?;
        let row: (&[u8], &[&str]) = (MAX, &["pred", value.as_str()]);
        expect_eval(&rt, alloc, row, (0, printed.as_str(), ""))?;
    }
    let value = number(alloc, 65_536)?;
    let row: (&[u8], &[&str]) = (MAX, &["pred", value.as_str()]);
    expect_eval(&rt, alloc, row, (13, "", "arguments: bad-value 0\n"))
}

#[test]
fn a_value_is_not_too_long(rt: HostRuntime) -> Result<(), Fail> {
    let alloc = rt.alloc();
    let mut value = String::new(alloc);
    for _ in 1..8_388_608 {
        value.push_str(" ")?;
    }
    value.push_str("Z")?;
    let row: (&[u8], &[&str]) = (MAX, &["pred", value.as_str()]);
    expect_eval(&rt, alloc, row, (0, "Z\ncalls 1\n", ""))?;
    value.push_str(" ")?;
    let row: (&[u8], &[&str]) = (MAX, &["pred", value.as_str()]);
    expect_eval(&rt, alloc, row, (13, "", "arguments: bad-value 0\n"))
}
