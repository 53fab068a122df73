ghost use Rattle.std.specs.Prelude.{◌≤◌, length};

use crate::{ParseEnd, parse};
use px_base::limits::PROGRAM_BYTES;
use px_lexer::{LexEnd, tokens};
use std::alloc::{AllocError, Global};
use std::process::Abort;
use std::test::Fail;

/// The fault of a text's tokens, or `None` where they are a program.
fn fault_of(alloc: Global, text: &[u8]) -> Result<Option<u32>, AllocError>
    requires { length text.now ≤ PROGRAM_BYTES }
{
    let found = match tokens(alloc, text) {
        Ok(found) => found,
        Err(LexEnd::Fault { at }) => return Ok(Some(at)),
        Err(LexEnd::NoMemory) => return Err(AllocError),
    };
    match parse(alloc, found.as_slice(), text) {
        Ok(_) => Ok(None),
        Err(ParseEnd::Fault { at }) => Ok(Some(at)),
        Err(ParseEnd::NoMemory) => Err(AllocError),
    }
}

fn check_all(rt: &impl Abort, alloc: Global, rows: &[(&str, Option<u32>)]) -> Result<(), Fail> {
    for (place, row) in rows.iter().enumerate() {
        let text = row.0.as_bytes();
        assert!(rt; text.len() <= PROGRAM_BYTES);
        let fault = fault_of(alloc, text)?;
        assert!(rt; fault == row.1, "row {place}: {fault:?}");
    }
    Ok(())
}

#[test]
fn faults_are_at_the_first_bad_token(rt: HostRuntime) -> Result<(), Fail> {
    let rows: [(&str, Option<u32>); 70] = [
        ("", None),
        ("def f(", Some(6)),
        ("x", Some(0)),
        ("data", Some(4)),
        ("data B { T }", None),
        ("data B<A, C> { T, F(A, List<C>) } data D { K }", None),
        ("data b", Some(5)),
        ("data B<> { T }", Some(7)),
        ("data B<A,> { T }", Some(9)),
        ("data B<A B> { T }", Some(9)),
        ("data B { }", Some(9)),
        ("data B { T, }", Some(12)),
        ("data B { T() }", Some(11)),
        ("data B { T(A }", Some(13)),
        ("data B { T(A<>) }", Some(13)),
        ("data B { T(A<B>) }", None),
        ("data B { T ", Some(11)),
        ("data B { T } }", Some(13)),
        ("def f(): B { x }", None),
        ("def f: B { x }", Some(5)),
        ("def f() B { x }", Some(8)),
        ("def f(): { x }", Some(9)),
        ("def f(): B { }", Some(13)),
        ("def f(): B { x x }", Some(15)),
        ("def f(): B<C> with comm, idem { x }", None),
        ("def f(): B with { x }", Some(16)),
        ("def f(): B with comm, { x }", Some(22)),
        ("def f(): B with comm idem { x }", Some(21)),
        ("def f(a: A, b: fn(A) -> A): B { x }", None),
        ("def f(a: A,): B { x }", Some(11)),
        ("def f(a A): B { x }", Some(8)),
        ("def f(a: fn() -> A): B { x }", Some(12)),
        ("def f(a: fn(A) A): B { x }", Some(15)),
        ("def f(a: fn(A) -> A with comm, b: B): B { x }", None),
        ("def f(a: fn(A) -> A with comm, idem, b: B): B { x }", None),
        ("def f(a: fn(A) -> A with comm, b): B { x }", Some(32)),
        ("def f(a: fn(A) -> A with comm, 5): B { x }", Some(31)),
        ("def f(a: fn(A) -> A with b: B): B { x }", Some(25)),
        ("def f(a: fn(A) -> A, b: B): B { x }", None),
        ("def f(a: A with comm): B { x }", Some(11)),
        ("def f(): B { 5 }", None),
        ("def f(): B { 5(x) }", Some(14)),
        ("def f(): B { C }", None),
        ("def f(): B { C<D>(x, 5) }", None),
        ("def f(): B { C() }", Some(15)),
        ("def f(): B { g() }", None),
        ("def f(): B { g<D>(x, g(), C) }", None),
        ("def f(): B { g(x,) }", Some(17)),
        ("def f(): B { match x { C => x } }", None),
        (
            "def f(): B { match x { C(a, b) => x, D => match y { E => z } } }",
            None,
        ),
        ("def f(): B { match x { } }", Some(23)),
        ("def f(): B { match x { C() => x } }", Some(25)),
        ("def f(): B { match x { C(A) => x } }", Some(25)),
        ("def f(): B { match x { C x } }", Some(25)),
        ("def f(): B { match { C => x } }", Some(19)),
        ("def f(): B { match x { C => x, } }", Some(31)),
        ("claim f: comm", None),
        ("claim f: comm, idem claim g: sel", None),
        ("claim f: ", Some(9)),
        ("claim f: comm, claim g: sel", Some(15)),
        ("lemma l(a: A): x = y", None),
        ("lemma l<T>(): x = y => f(x) = C => 1 = 2", None),
        ("lemma l(): x", Some(12)),
        ("lemma l(): x = y = z", Some(17)),
        ("lemma l(): x = y =>", Some(19)),
        ("replica r: S from C(1) by m", None),
        ("replica r: S<T> from C by m<T>(f, g<A>)", None),
        ("replica r: S from C by m()", Some(25)),
        ("replica r: S from C by M", Some(23)),
        ("replica r: S from C by m data B { T }", None),
    ];
    check_all(&rt, rt.alloc(), &rows)
}

/// `data Nat { Z, S(Nat) }`, and a definition whose body is `Z` inside so many parts that these bytes open.
fn nested(
    alloc: Global,
    open: &str,
    depth: usize,
    inner: &str,
    close: &str,
) -> Result<String, AllocError> {
    let mut text = format!(in alloc; "data Nat {{ Z, S(Nat) }}\ndef f(): Nat {{ ")?;
    for _ in 0..depth {
        text.push_str(open)?;
    }
    text.push_str(inner)?;
    for _ in 0..depth {
        text.push_str(close)?;
    }
    text.push_str(" }")?;
    Ok(text)
}

fn check_nested(
    rt: &impl Abort,
    alloc: Global,
    open: &str,
    depth: usize,
    inner: &str,
    close: &str,
    fault: Option<u32>,
) -> Result<(), Fail> {
    let text = nested(alloc, open, depth, inner, close)?;
    assert!(rt; text.len() <= PROGRAM_BYTES);
    let found = fault_of(alloc, text.as_str().as_bytes())?;
    assert!(rt; found == fault, "{found:?}");
    Ok(())
}

#[test]
fn nesting_is_at_most_the_limit(rt: HostRuntime) -> Result<(), Fail> {
    let alloc = rt.alloc();
    check_nested(&rt, alloc, "S(", 199, "Z", ")", None)?;
    check_nested(&rt, alloc, "S(", 200, "Z", ")", Some(437))?;
    check_nested(&rt, alloc, "s(", 199, "z", ")", None)?;
    check_nested(&rt, alloc, "s(", 199, "z()", ")", None)?;
    check_nested(&rt, alloc, "s(", 199, "z(y)", ")", Some(438))?;
    check_nested(&rt, alloc, "s(", 199, "z<A>", ")", Some(437))?;
    check_nested(&rt, alloc, "s(", 198, "z<A>", ")", None)?;
    check_nested(&rt, alloc, "s(", 199, "match y { A => x }", ")", Some(436))?;
    check_nested(&rt, alloc, "s(", 198, "match y { A => x }", ")", None)?;
    Ok(())
}
