use crate::{CommandLine, drive, status};
use px_world::{Bytes, MemoryFiles, MemorySink};
use std::alloc::{AllocError, Global};
use std::process::Abort;
use std::test::Fail;

/// A program of one definition with two properties.
const OR: &[u8] =
    b"def or(a: Bool, b: Bool): Bool with comm, idem { match a { False => b, True => True } }\n";

/// The lines of the derivation of that program.
const LINES: [&[u8]; 24] = [
    b"goal 0",
    b"case 0",
    b"case 1",
    b"same 0",
    b"step a0l / unfold",
    b"step a0l / select",
    b"step a0r / unfold",
    b"step a0r / select",
    b"same 0",
    b"case 1",
    b"step a0l / unfold",
    b"step a0l / select",
    b"step a0r / unfold",
    b"step a0r / select",
    b"same 0",
    b"same 0",
    b"goal 1",
    b"case 0",
    b"step a0l / unfold",
    b"step a0l / select",
    b"same 0",
    b"step a0l / unfold",
    b"step a0l / select",
    b"same 0",
];

/// The derivation of that program.
const WHOLE: &[u8] =
    b"goal 0\ncase 0\ncase 1\nsame 0\nstep a0l / unfold\nstep a0l / select\nstep a0r / unfold\nstep a0r / select\n\
same 0\ncase 1\nstep a0l / unfold\nstep a0l / select\nstep a0r / unfold\nstep a0r / select\nsame 0\nsame 0\n\
goal 1\ncase 0\nstep a0l / unfold\nstep a0l / select\nsame 0\nstep a0l / unfold\nstep a0l / select\nsame 0\n";

/// The derivation that `or` is idempotent.
const IDEM: &[u8] =
    b"goal 0\ncase 0\nstep a0l / unfold\nstep a0l / select\nsame 0\nstep a0l / unfold\nstep a0l / select\nsame 0\n";

/// The derivation that `or` is associative.
const ASSOC: &[u8] =
    b"goal 0\ncase 0\nstep a0l / unfold\nstep a0l /0 unfold\nstep a0l /0 select\nstep a0r / unfold\nstep a0r / select\n\
step a0r / unfold\nsame 0\nstep a0l / unfold\nstep a0l /0 unfold\nstep a0l /0 select\nstep a0l / select\n\
step a0r / unfold\nstep a0r / select\nsame 0\n";

/// The derivation that `or` gives one of the two, where each case closes by another alternative.
const SEL: &[u8] =
    b"goal 0\ncase 0\nstep a1l / unfold\nstep a1l / select\nsame 1\nstep a0l / unfold\nstep a0l / select\nsame 0\n";

/// The properties of `or`, a text, and what is printed where it is accepted, or what is told where it is not.
const DERIVATIONS: [(&str, &[u8], &str, &str); 13] = [
    (" with idem", IDEM, "accepted 1\n", ""),
    ("", b"", "accepted 0\n", ""),
    (" with assoc", ASSOC, "accepted 1\n", ""),
    (" with sel", SEL, "accepted 1\n", ""),
    // Unfolded once, above the cases.
    (
        " with idem",
        b"goal 0\nstep a0l / unfold\ncase 0\nstep a0l / select\nsame 0\nstep a0l / select\nsame 0\n",
        "accepted 1\n",
        "",
    ),
    (" with comm, idem", IDEM, "", "rejected: line 5 rule\n"),
    (" with idem", WHOLE, "", "rejected: line 3 rule\n"),
    ("", b"\n\n\n", "", "rejected: line 1 form\n"),
    (" with assoc", IDEM, "", "rejected: line 4 rule\n"),
    // A premise is a fact, and what is to be shown is not among the facts.
    (
        " with sym",
        b"goal 0\nsame 0\n",
        "",
        "rejected: line 2 rule\n",
    ),
    // The sides differ; there is no such variable; the case of `True` is missing.
    (
        " with idem",
        b"goal 0\nsame 0\n",
        "",
        "rejected: line 2 rule\n",
    ),
    (
        " with idem",
        b"goal 0\ncase 1\nsame 0\nsame 0\n",
        "",
        "rejected: line 2 rule\n",
    ),
    (
        " with idem",
        b"goal 0\ncase 0\nstep a0l / unfold\nstep a0l / select\nsame 0\n",
        "",
        "rejected: line 6 end\n",
    ),
];

/// Places of lines of the whole derivation, and the line and the kind of its rejection where that line stands twice.
const TWICE: [(usize, usize, &str); 6] = [
    (0, 2, "order"),
    (1, 3, "rule"),
    (3, 5, "rule"),
    (14, 17, "order"),
    (16, 18, "order"),
    (23, 25, "order"),
];

/// Lines as a text, each ended by a line feed.
fn text_of(alloc: Global, lines: &[&[u8]]) -> Result<Bytes, Fail> {
    let mut text = Bytes::new(alloc);
    for line in lines {
        text.extend_from_slice(line)?;
        text.extend_from_slice(b"\n")?;
    }
    Ok(text)
}

/// A call of `drive` over a program named `p`, a derivation named `d` and a schedule named `s`, in pieces of so many bytes, at least one. The
/// listed calls of the files and writes of the output and of the errors fail.
#[derive(Clone, Copy)]
pub(crate) struct Call<'a> {
    pub(crate) words: &'a [&'a str],
    pub(crate) program: &'a [u8],
    pub(crate) derivation: &'a [u8],
    pub(crate) schedule: &'a [u8],
    pub(crate) piece: usize,
    pub(crate) failing_calls: &'a [u64],
    pub(crate) failing_writes: &'a [u64],
    pub(crate) failing_errors: &'a [u64],
}

/// The call that replays the whole derivation.
pub(crate) const REPLAY: Call<'static> = Call {
    words: &["replay", "p", "d"],
    program: OR,
    derivation: WHOLE,
    schedule: b"",
    piece: 4096,
    failing_calls: &[],
    failing_writes: &[],
    failing_errors: &[],
};

/// The call that checks the program.
pub(crate) const CHECK: Call<'static> = Call {
    words: &["check", "p"],
    program: OR,
    derivation: b"",
    schedule: b"",
    piece: 4096,
    failing_calls: &[],
    failing_writes: &[],
    failing_errors: &[],
};

/// Words that are no plain line.
const OTHER_WORDS: [&[&str]; 10] = [
    &[],
    &["check"],
    &["check", "-p"],
    &["check", "p", "d"],
    &["replay"],
    &["replay", "p"],
    &["replay", "p", "-d"],
    &["replay", "p", ""],
    &["replay", "p", "d", "d"],
    &["replays", "p", "d"],
];

/// Texts that are no program, and the lines that refuse them.
const REFUSED: [(&[u8], &str); 9] = [
    (b"def f(", "source: parse at 6\n"),
    (b"def f(a: Bool,): Bool { a }", "source: parse at 14\n"),
    (b"def f(a: Bool): Bool { a", "source: parse at 24\n"),
    (b"def f(): Bool { g() }", "source: scope unknown at 16\n"),
    (
        b"def f(a: Bool): Bool { g(a) } def g(a: Bool): Bool { a }",
        "source: scope later at 23\n",
    ),
    (
        b"def f(a: Bool, a: Bool): Bool { a }",
        "source: scope repeated at 15\n",
    ),
    (
        b"def f(a: Bool): Bool { a(a) }",
        "source: scope wrong-place at 23\n",
    ),
    (
        b"def big(): Word { 18446744073709551616 }",
        "source: lex at 18\n",
    ),
    (b"def f(a: Bool): Bool { a } $", "source: lex at 27\n"),
];

/// Calls over other pieces, files and devices, each with its status, its output and its errors.
const CALLS: [(Call<'static>, u8, &str, &str); 17] = [
    (
        CHECK,
        0,
        "checked: datatypes 0, definitions 1, obligations 2\n",
        "",
    ),
    (REPLAY, 0, "accepted 2\n", ""),
    (
        Call {
            piece: 16,
            ..REPLAY
        },
        0,
        "accepted 2\n",
        "",
    ),
    (
        Call {
            program: b"",
            derivation: b"",
            ..REPLAY
        },
        0,
        "accepted 0\n",
        "",
    ),
    // Claims and replicas.
    (
        Call {
            program: b"def or(a: Bool, b: Bool): Bool with comm { match a { False => b, True => True } }\nclaim or: idem",
            ..REPLAY
        },
        0,
        "accepted 2\n",
        "",
    ),
    (
        Call {
            program: b"def or(a: Bool, b: Bool): Bool with comm { match a { False => b, True => True } }\nclaim or: sel",
            ..REPLAY
        },
        5,
        "",
        "rejected: line 21 rule\n",
    ),
    (
        Call {
            program: b"def or(a: Bool, b: Bool): Bool with comm, idem, assoc { match a { False => b, True => True } }\n\
replica s: Bool from False by or",
            ..REPLAY
        },
        5,
        "",
        "rejected: line 25 end\n",
    ),
    // The program is taken before the derivation is opened.
    (
        Call {
            words: &["replay", "p", "q"],
            ..REPLAY
        },
        8,
        "",
        "read fault\n",
    ),
    (
        Call {
            words: &["replay", "p", "q"],
            program: b"def f(",
            ..REPLAY
        },
        3,
        "",
        "source: parse at 6\n",
    ),
    // The program is opened and read in seven calls; then the derivation is opened, and its second read fails.
    (
        Call {
            piece: 16,
            failing_calls: &[10],
            ..REPLAY
        },
        8,
        "",
        "read fault\n",
    ),
    // A derivation is read to its end before its first line is refused.
    (
        Call {
            derivation: b"same 0\n",
            ..REPLAY
        },
        5,
        "",
        "rejected: line 1 order\n",
    ),
    (
        Call {
            derivation: b"same 0\n",
            failing_calls: &[5],
            ..REPLAY
        },
        8,
        "",
        "read fault\n",
    ),
    (
        Call {
            words: &["replay", "q", "d"],
            ..REPLAY
        },
        8,
        "",
        "read fault\n",
    ),
    (
        Call {
            failing_writes: &[0],
            ..CHECK
        },
        9,
        "",
        "write fault\n",
    ),
    (
        Call {
            failing_writes: &[0],
            ..REPLAY
        },
        9,
        "",
        "write fault\n",
    ),
    (
        Call {
            words: &[],
            failing_errors: &[0],
            ..REPLAY
        },
        9,
        "",
        "",
    ),
    // The line is written in pieces, and its second one fails.
    (
        Call {
            program: b"def f(",
            failing_errors: &[1],
            ..CHECK
        },
        9,
        "",
        "source: parse at ",
    ),
];

/// Makes the call and compares the status and both outputs, byte for byte.
pub(crate) fn expect(
    rt: &impl Abort,
    alloc: Global,
    call: &Call,
    wanted: u8,
    printed: &str,
    told: &str,
) -> Result<(), Fail> {
    let mut words = Vec::new(alloc);
    for word in call.words {
        words.push(String::from_str(alloc, word)?)?;
    }
    let piece = call.piece.max(1);
    let mut files = MemoryFiles::new(alloc, call.failing_calls, piece)?;
    files.add("p", call.program)?;
    files.add("d", call.derivation)?;
    files.add("s", call.schedule)?;
    let mut out = MemorySink::new(alloc, call.failing_writes, piece)?;
    let mut err = MemorySink::new(alloc, call.failing_errors, piece)?;
    let outcome = drive(alloc, &words, &mut files, &mut out, &mut err);
    assert_eq!(rt; out.written(), printed.as_bytes());
    assert_eq!(rt; err.written(), told.as_bytes());
    assert_eq!(rt; status(&outcome), wanted);
    Ok(())
}

#[test]
fn each_call_has_its_end(rt: HostRuntime) -> Result<(), Fail> {
    for (call, wanted, printed, told) in CALLS {
        expect(&rt, rt.alloc(), &call, wanted, printed, told)?;
    }
    for words in OTHER_WORDS {
        let call = Call { words, ..REPLAY };
        let usage =
            "usage: propel check F | replay F D | eval F NAME V.. [--calls N] | run F D S [--calls N]\n";
        expect(&rt, rt.alloc(), &call, 2, "", usage)?;
    }
    for (program, line) in REFUSED {
        expect(&rt, rt.alloc(), &Call { program, ..CHECK }, 3, "", line)?;
        expect(&rt, rt.alloc(), &Call { program, ..REPLAY }, 3, "", line)?;
    }
    Ok(())
}

#[test]
fn derivations_of_or_are_replayed(rt: HostRuntime) -> Result<(), Fail> {
    let alloc = rt.alloc();
    for (with, derivation, printed, told) in DERIVATIONS {
        let program = format!(in alloc;
            "def or(a: Bool, b: Bool): Bool{with} {{ match a {{ False => b, True => True }} }}"
        )?;
        let call = Call {
            program: program.as_bytes(),
            derivation,
            ..REPLAY
        };
        let wanted = if printed.is_empty() { 5 } else { 0 };
        expect(&rt, alloc, &call, wanted, printed, told)?;
    }
    Ok(())
}

/// A call over another derivation of the program is rejected at this line for this reason.
fn expect_rejected(
    rt: &impl Abort,
    alloc: Global,
    derivation: &[u8],
    line: usize,
    why: &str,
) -> Result<(), Fail> {
    let told = format!(in alloc; "rejected: line {line} {why}\n")?;
    let call = Call {
        derivation,
        ..REPLAY
    };
    expect(rt, alloc, &call, 5, "", told.as_str())
}

/// The derivation with another line in the place of the one at `place` is rejected there for this reason.
fn expect_line_rejected(
    rt: &impl Abort,
    alloc: Global,
    place: usize,
    other: &[u8],
    why: &str,
) -> Result<(), Fail> {
    let mut lines = Vec::new(alloc);
    let mut number = 0;
    for (at, line) in LINES.iter().enumerate() {
        lines.push(if at == place { other } else { *line })?;
        if at == place {
            number = at + 1;
        }
    }
    let text = text_of(alloc, lines.as_slice())?;
    expect_rejected(rt, alloc, text.as_slice(), number, why)
}

/// The line with `more` before the first byte `mark` in it, or at its end where it has none.
fn spelled(alloc: Global, line: &[u8], mark: u8, more: &[u8]) -> Result<Bytes, Fail> {
    let mut text = Bytes::new(alloc);
    let mut is_first = true;
    for byte in line {
        if is_first && *byte == mark {
            text.extend_from_slice(more)?;
            is_first = false;
        }
        text.push(*byte)?;
    }
    if is_first {
        text.extend_from_slice(more)?;
    }
    Ok(text)
}

#[test]
fn a_derivation_cut_short_is_rejected_at_its_end(rt: HostRuntime) -> Result<(), Fail> {
    let alloc = rt.alloc();
    for count in 0..LINES.len() {
        let front = text_of(alloc, &LINES[..count])?;
        expect_rejected(&rt, alloc, front.as_slice(), count + 1, "end")?;
    }
    expect_rejected(&rt, alloc, &WHOLE[..WHOLE.len() - 1], 24, "form")
}

#[test]
fn a_line_twice_is_rejected(rt: HostRuntime) -> Result<(), Fail> {
    let alloc = rt.alloc();
    for (place, line, why) in TWICE {
        let mut lines = Vec::new(alloc);
        for (at, text) in LINES.iter().enumerate() {
            lines.push(*text)?;
            if at == place {
                lines.push(*text)?;
            }
        }
        let text = text_of(alloc, lines.as_slice())?;
        expect_rejected(&rt, alloc, text.as_slice(), line, why)?;
    }
    Ok(())
}

#[test]
fn another_line_is_rejected(rt: HostRuntime) -> Result<(), Fail> {
    let alloc = rt.alloc();
    for (place, line) in LINES.iter().enumerate() {
        let why = if line.starts_with(b"goal") {
            "order"
        } else {
            "rule"
        };
        expect_line_rejected(&rt, alloc, place, b"same 1", why)?;
        // A leading zero, a doubled space, a space and a carriage return at the end.
        let digit = if line.contains(&b'0') { b'0' } else { b'1' };
        for (mark, more) in [(digit, b"0"), (b' ', b" "), (b'\n', b" "), (b'\n', b"\r")] {
            let other = spelled(alloc, line, mark, more)?;
            expect_line_rejected(&rt, alloc, place, other.as_slice(), "form")?;
        }
    }
    Ok(())
}

/// A program of one constant definition, with matches so many levels deep in the arm that is never taken.
fn choices(alloc: Global, levels: u32) -> Result<String, AllocError> {
    let mut text = String::from_str(alloc, "a")?;
    for _ in 0..levels {
        let mut next = String::from_str(alloc, "match a{False=>")?;
        next.push_str(text.as_str())?;
        next.push_str(",True=>")?;
        next.push_str(text.as_str())?;
        next.push_str("}")?;
        text = next;
    }
    let mut program = String::from_str(
        alloc,
        "def f(a: Bool, b: Bool): Bool with comm { match True { False => ",
    )?;
    program.push_str(text.as_str())?;
    program.push_str(", True => False } }")?;
    Ok(program)
}

/// The derivation for such a definition.
const CHOSEN: &[u8] =
    b"goal 0\nstep a0l / unfold\nstep a0l / select\nstep a0r / unfold\nstep a0r / select\nsame 0\n";

/// A header and so many splits of a truth value.
fn splits(alloc: Global, count: u32) -> Result<Bytes, Fail> {
    let mut text = Bytes::new(alloc);
    text.extend_from_slice(b"goal 0\n")?;
    for _ in 0..count {
        text.extend_from_slice(b"split True\n")?;
    }
    Ok(text)
}

#[test]
fn limits_are_kept(rt: HostRuntime) -> Result<(), Fail> {
    let spaces = vec![in rt.alloc(); b' '; 262_145]?;
    let none = "checked: datatypes 0, definitions 0, obligations 0\n";
    let full = Call {
        program: &spaces[1..],
        ..CHECK
    };
    expect(&rt, rt.alloc(), &full, 0, none, "")?;
    for call in [CHECK, REPLAY] {
        let long = Call {
            program: &spaces,
            ..call
        };
        expect(&rt, rt.alloc(), &long, 11, "", "too long: program\n")?;
    }
    // A body over the limit of a term isn't unfolded.
    for (levels, wanted, printed, told) in [
        (12, 0, "accepted 1\n", ""),
        (13, 5, "", "rejected: line 2 rule\n"),
    ] {
        let program = choices(rt.alloc(), levels)?;
        let call = Call {
            program: program.as_bytes(),
            derivation: CHOSEN,
            ..REPLAY
        };
        expect(&rt, rt.alloc(), &call, wanted, printed, told)?;
    }
    Ok(())
}

#[test]
fn a_sequent_has_at_most_a_thousand_facts(rt: HostRuntime) -> Result<(), Fail> {
    for (count, why) in [(1_000, "end"), (1_001, "rule")] {
        let text = splits(rt.alloc(), count)?;
        expect_rejected(&rt, rt.alloc(), text.as_slice(), 1_002, why)?;
    }
    Ok(())
}

#[test]
fn the_line_that_was_read_is_kept(rt: HostRuntime) -> Result<(), Fail> {
    let mut words = Vec::new(rt.alloc());
    for word in ["replay", "x", "y"] {
        words.push(String::from_str(rt.alloc(), word)?)?;
    }
    let mut files = MemoryFiles::new(rt.alloc(), &[], 1)?;
    let mut out = MemorySink::new(rt.alloc(), &[], 1)?;
    let mut err = MemorySink::new(rt.alloc(), &[], 1)?;
    let outcome = drive(rt.alloc(), &words, &mut files, &mut out, &mut err);
    let kept = match &outcome.line {
        Some(CommandLine::Replay { file, derivation }) => {
            file.as_str() == "x" && derivation.as_str() == "y"
        }
        Some(CommandLine::Check { .. })
        | Some(CommandLine::Eval { .. })
        | Some(CommandLine::Run { .. })
        | None => false,
    };
    assert!(rt; kept);
    Ok(())
}
