ghost use Rattle.std.specs.Prelude.{◌≤◌, length};

use crate::{LexEnd, tokens};
use px_base::limits::PROGRAM_BYTES;
use std::alloc::{AllocError, Global};
use std::process::Abort;
use std::test::Fail;

/// What `tokens` answers, as text: each token's kind, places and number, or the fault's place.
fn shown(alloc: Global, text: &[u8]) -> Result<String, AllocError>
    requires { length text.now ≤ PROGRAM_BYTES }
{
    match tokens(alloc, text) {
        Ok(found) => {
            let mut out = String::new(alloc);
            for token in found.as_slice() {
                let (kind, start, end, number) = (token.kind, token.start, token.end, token.number);
                out = format!(in alloc; "{out}{kind:?} {start} {end} {number};")?;
            }
            Ok(out)
        }
        Err(LexEnd::Fault { at }) => format!(in alloc; "fault {at}"),
        Err(LexEnd::NoMemory) => Err(AllocError),
    }
}

fn check_all(rt: &impl Abort, alloc: Global, rows: &[(&[u8], &str)]) -> Result<(), Fail> {
    for (place, row) in rows.iter().enumerate() {
        assert!(rt; row.0.len() <= PROGRAM_BYTES);
        let answer = shown(alloc, row.0)?;
        assert_eq!(rt; answer.as_str(), row.1, "row {place}");
    }
    Ok(())
}

#[test]
fn each_kind_of_token_is_read(rt: HostRuntime) -> Result<(), Fail> {
    let rows: [(&[u8], &str); 8] = [
        (b"", ""),
        (b"a", "Lower 0 1 0;"),
        (b" x_1Y ", "Lower 1 5 0;"),
        (b"Nat2_z", "Upper 0 6 0;"),
        (b"7", "Number 0 1 7;"),
        (
            b"data def claim lemma replica from by match fn with",
            "Key(KData) 0 4 0;Key(KDef) 5 8 0;Key(KClaim) 9 14 0;Key(KLemma) 15 20 0;Key(KReplica) 21 28 0;Key(KFrom) 29 33 0;Key(KBy) 34 36 0;Key(KMatch) 37 42 0;Key(KFn) 43 45 0;Key(KWith) 46 50 0;",
        ),
        (
            b"comm assoc idem sel refl irrefl sym antisym asym trans conn",
            "Property(Comm) 0 4 0;Property(Assoc) 5 10 0;Property(Idem) 11 15 0;Property(Sel) 16 19 0;Property(Refl) 20 24 0;Property(Irrefl) 25 31 0;Property(Sym) 32 35 0;Property(Antisym) 36 43 0;Property(Asym) 44 48 0;Property(Trans) 49 54 0;Property(Conn) 55 59 0;",
        ),
        (
            b"{}()<>,:= -> =>",
            "Mark(BraceL) 0 1 0;Mark(BraceR) 1 2 0;Mark(ParenL) 2 3 0;Mark(ParenR) 3 4 0;Mark(Less) 4 5 0;Mark(Greater) 5 6 0;Mark(Comma) 6 7 0;Mark(Colon) 7 8 0;Mark(Equal) 8 9 0;Mark(Arrow) 10 12 0;Mark(FatArrow) 13 15 0;",
        ),
    ];
    check_all(&rt, rt.alloc(), &rows)
}

#[test]
fn the_longest_token_is_read(rt: HostRuntime) -> Result<(), Fail> {
    let rows: [(&[u8], &str); 12] = [
        (b"=>>", "Mark(FatArrow) 0 2 0;Mark(Greater) 2 3 0;"),
        (b"==>", "Mark(Equal) 0 1 0;Mark(FatArrow) 1 3 0;"),
        (b"= >", "Mark(Equal) 0 1 0;Mark(Greater) 2 3 0;"),
        (b">=", "Mark(Greater) 0 1 0;Mark(Equal) 1 2 0;"),
        (b"->>", "Mark(Arrow) 0 2 0;Mark(Greater) 2 3 0;"),
        (b"symx", "Lower 0 4 0;"),
        (b"comma", "Lower 0 5 0;"),
        (b"sym_", "Lower 0 4 0;"),
        (
            b"sy with1 with",
            "Lower 0 2 0;Lower 3 8 0;Key(KWith) 9 13 0;",
        ),
        (b"antisym antis", "Property(Antisym) 0 7 0;Lower 8 13 0;"),
        (b"Data dataX", "Upper 0 4 0;Lower 5 10 0;"),
        (b"12ab3", "Number 0 2 12;Lower 2 5 0;"),
    ];
    check_all(&rt, rt.alloc(), &rows)
}

#[test]
fn a_number_has_its_value(rt: HostRuntime) -> Result<(), Fail> {
    let rows: [(&[u8], &str); 7] = [
        (b"0", "Number 0 1 0;"),
        (b"007", "Number 0 3 7;"),
        (b"18446744073709551615", "Number 0 20 18446744073709551615;"),
        (b"18446744073709551616", "fault 0"),
        (b"a 18446744073709551620", "fault 2"),
        (
            b"0000018446744073709551615",
            "Number 0 25 18446744073709551615;",
        ),
        (b"x,99999999999999999999999 _", "fault 2"),
    ];
    check_all(&rt, rt.alloc(), &rows)
}

#[test]
fn gaps_are_blanks_and_comments(rt: HostRuntime) -> Result<(), Fail> {
    let rows: [(&[u8], &str); 9] = [
        (b" \t\r\n", ""),
        (b"#", ""),
        (b"# to the end", ""),
        (b"a#b\nc", "Lower 0 1 0;Lower 4 5 0;"),
        (b"a#b\rc", "Lower 0 1 0;"),
        (b"a\rc", "Lower 0 1 0;Lower 2 3 0;"),
        (b"#\x00\xff\x0c_#\n->", "Mark(Arrow) 7 9 0;"),
        (b"##\n#\n\n#", ""),
        (b"1#\n2", "Number 0 1 1;Number 3 4 2;"),
    ];
    check_all(&rt, rt.alloc(), &rows)
}

#[test]
fn a_fault_is_the_first_place_where_nothing_begins(rt: HostRuntime) -> Result<(), Fail> {
    let rows: [(&[u8], &str); 11] = [
        (b"_", "fault 0"),
        (b"a _b", "fault 2"),
        (b"-", "fault 0"),
        (b"- >", "fault 0"),
        (b"a-", "fault 1"),
        (b"\x00", "fault 0"),
        (b"a\x0c", "fault 1"),
        (b"ab\xc3\xa9", "fault 2"),
        (b"#\xc3\n\xc3", "fault 3"),
        (b"{ } ;", "fault 4"),
        (b"a.b", "fault 1"),
    ];
    check_all(&rt, rt.alloc(), &rows)
}

#[test]
fn the_largest_texts_are_read(rt: HostRuntime) -> Result<(), Fail> {
    let alloc = rt.alloc();
    for (byte, expected) in [
        (b' ', ""),
        (b'#', ""),
        (b'z', "Lower 0 262144 0;"),
        (b'0', "Number 0 262144 0;"),
        (b'9', "fault 0"),
    ] {
        let text = vec![in alloc; byte; 262_144]?;
        assert!(rt; text.len() <= PROGRAM_BYTES);
        let answer = shown(alloc, &text)?;
        assert_eq!(rt; answer.as_str(), expected);
    }
    Ok(())
}
