use crate::{LineEnd, Piece, Row, Tree, next_line, print_tree, read_line};
use px_base::{Names, Text};
use sqlite_items::Items;
use std::alloc::{AllocError, Global};
use std::test::Fail;

/// Lines, each of a row: each kind of row, and what is read though no rule would apply.
const TAKEN: [&[u8]; 34] = [
    b"goal 0",
    b"goal 7 on 0",
    b"goal 4294967295 on 0 2 4294967295",
    b"same 0",
    b"same 4294967295",
    b"step a0l / unfold",
    b"step f12r /0/30/1 select",
    b"step a1r /1 compare",
    b"step a0l /0 fact 4 lr",
    b"step f0l / fact 0 rl",
    b"note join.comm [Word] [wmax] [$0,$1]",
    b"note wle.conn [] [] [$2,$4]",
    b"note weq.sym [] [] []",
    b"note %0.assoc [] [] [$0,$1,$2]",
    b"note add.irrefl [Map<Nat,Word,'3>] [add,%0<Word>,weq] [S]",
    b"note both [] [] [$0,$1]",
    b"hyp []",
    b"hyp [$2,Cons<Word>($3,$4)]",
    b"case 10",
    b"clash 0",
    b"inject 5",
    b"split wle($0,$1)",
    b"split add()",
    b"split Nil<Word>",
    b"split Cons<Word>(18446744073709551615,Nil<Word>)",
    b"split join<List<'0>>(wmax,%1<Word>,$0,Empty<Word>)",
    b"split S(S(Z))",
    // There is no such variable, and these have a wrong number of types, fields or arguments.
    b"split $7",
    b"split %7()",
    b"split True<Word>",
    b"split Z($0)",
    b"split S",
    b"split wle<Word>(0,1,2)",
    b"note both [Nat<Word>,List] [] []",
];

/// Lines of no row.
const REFUSED: [&[u8]; 60] = [
    b"",
    b"goal",
    b"goal ",
    b"goal 00",
    b"goal 4294967296",
    b"goal 0 on",
    b"goal 0 on ",
    b"goal 0 on 0 ",
    b"goal 0 0",
    b"same 01",
    b"same 0 ",
    b"same  0",
    b" same 0",
    b"same 0\r",
    b"same 0\n",
    b"same +0",
    b"same 4294967296",
    b"same",
    b"Same 0",
    b"step a0l  unfold",
    b"step a0l unfold",
    b"step a0 / unfold",
    b"step b0l / unfold",
    b"step a00l / unfold",
    b"step a0l /0/ unfold",
    b"step a0l 0 unfold",
    b"step a0l /4294967296 unfold",
    b"step a0l / unfolded",
    b"step a0l / fact 0",
    b"step a0l / fact lr",
    b"step a0l / fact 0 lrl",
    b"case $0",
    b"hyp $0",
    b"hyp [$0,]",
    b"hyp [,$0]",
    b"hyp [$0, $1]",
    b"hyp [] [] []",
    b"note both [] []",
    b"note both [][] []",
    b"note both [Map<>] [] []",
    b"note both [Word<Word>] [] []",
    b"note both [Z] [] []",
    b"note both [] [Z] []",
    b"note both [] [] [wmax]",
    // A lemma with a property, functions without one, a name of a replica, and one of nothing.
    b"note both.comm [] [] []",
    b"note add [] [] []",
    b"note wle [] [] []",
    b"note %0 [] [] []",
    b"note state [] [] []",
    b"note state.comm [] [] []",
    b"note add.commutes [] [] []",
    b"split state(0)",
    b"split both(0)",
    b"split other(0)",
    b"split Nat",
    b"split Z()",
    b"split Nil<Word>()",
    b"split wmax",
    b"split add(0,wmax)",
    b"split 18446744073709551616",
];

fn texts(alloc: Global, words: &[&str]) -> Result<Items<Text>, AllocError> {
    let mut texts = Items::new(alloc);
    for word in words {
        texts.push(Text::new(String::from_str(alloc, word)?))?;
    }
    Ok(texts)
}

/// The names of a program with numbers, lists and maps.
fn names(alloc: Global) -> Result<Names, AllocError> {
    let mut cons = Items::new(alloc);
    cons.push(texts(alloc, &["False", "True"])?)?;
    cons.push(texts(alloc, &["Z", "S"])?)?;
    cons.push(texts(alloc, &["Nil", "Cons"])?)?;
    cons.push(texts(alloc, &["Empty", "Bind"])?)?;
    Ok(Names {
        datatypes: texts(alloc, &["Bool", "Nat", "List", "Map"])?,
        cons,
        defs: texts(alloc, &["add", "join", "wmax"])?,
        lemmas: texts(alloc, &["both"])?,
        replicas: texts(alloc, &["state"])?,
    })
}

/// A line with a part that nests: what stands around the part, the pair that is repeated, and what is inside.
struct Nest {
    line: (&'static str, &'static str),
    pair: (&'static str, &'static str),
    inner: &'static str,
    most: u32,
}

/// Parts that nest, each with how often at most: a term counts with its types, a type by itself.
const NESTS: [Nest; 5] = [
    Nest {
        line: ("split ", ""),
        pair: ("S(", ")"),
        inner: "Z",
        most: 399,
    },
    Nest {
        line: ("split ", ""),
        pair: ("add(", ")"),
        inner: "Nil<Word>",
        most: 398,
    },
    Nest {
        line: ("split ", ""),
        pair: ("add(", ")"),
        inner: "wmax<Word>",
        most: 398,
    },
    Nest {
        line: ("note both [", "] [] []"),
        pair: ("List<", ">"),
        inner: "Word",
        most: 399,
    },
    Nest {
        line: ("note both [] [add<", ">] []"),
        pair: ("List<", ">"),
        inner: "Word",
        most: 399,
    },
];

/// The line in which the pair is repeated so often.
fn nested(alloc: Global, nest: &Nest, times: u32) -> Result<String, AllocError> {
    let mut text = String::from_str(alloc, nest.line.0)?;
    for _ in 0..times {
        text.push_str(nest.pair.0)?;
    }
    text.push_str(nest.inner)?;
    for _ in 0..times {
        text.push_str(nest.pair.1)?;
    }
    text.push_str(nest.line.1)?;
    Ok(text)
}

#[test]
fn a_line_is_read_and_printed_back(rt: HostRuntime) -> Result<(), Fail> {
    let alloc = rt.alloc();
    let names = names(alloc)?;
    for (place, line) in TAKEN.into_iter().enumerate() {
        let Ok(row) = read_line(alloc, &names, line) else {
            assert!(rt; false, "line {place} is not read");
            return Ok(());
        };
        let mut rows = Items::new(alloc);
        rows.push(row)?;
        let tree = Tree {
            on: Items::new(alloc),
            rows,
        };
        let printed = print_tree(alloc, &names, 0, &tree)?;
        let mut wanted = Vec::from_slice(alloc, b"goal 0\n")?;
        wanted.extend_from_slice(line)?;
        wanted.push(b'\n')?;
        assert_eq!(rt; printed.as_slice(), wanted.as_slice(), "line {place}");
    }
    Ok(())
}

#[test]
fn a_line_of_no_row_is_refused(rt: HostRuntime) -> Result<(), Fail> {
    let alloc = rt.alloc();
    let names = names(alloc)?;
    for (place, line) in REFUSED.into_iter().enumerate() {
        let read = read_line(alloc, &names, line).err();
        assert_eq!(rt; read, Some(LineEnd::Form), "line {place}");
    }
    Ok(())
}

#[test]
fn terms_and_types_nest_up_to_the_limit(rt: HostRuntime) -> Result<(), Fail> {
    let alloc = rt.alloc();
    let names = names(alloc)?;
    for (place, nest) in NESTS.iter().enumerate() {
        let deepest = nested(alloc, nest, nest.most)?;
        assert!(rt;
            read_line(alloc, &names, deepest.as_bytes()).is_ok(),
            "nest {place}"
        );
        let deeper = nested(alloc, nest, nest.most + 1)?;
        let read = read_line(alloc, &names, deeper.as_bytes()).err();
        assert_eq!(rt; read, Some(LineEnd::Form), "nest {place}");
    }
    Ok(())
}

#[test]
fn a_tree_is_its_header_and_its_rows(rt: HostRuntime) -> Result<(), Fail> {
    let alloc = rt.alloc();
    let names = names(alloc)?;
    let mut on = Items::new(alloc);
    on.push(0)?;
    on.push(3)?;
    let mut rows = Items::new(alloc);
    rows.push(Row::CaseVar { variable: 3 })?;
    rows.push(Row::Inject { fact: 1 })?;
    rows.push(Row::Same { alternative: 0 })?;
    let tree = Tree { on, rows };
    let text = print_tree(alloc, &names, 12, &tree)?;
    assert_eq!(rt;
        text.as_slice(),
        b"goal 12 on 0 3\ncase 3\ninject 1\nsame 0\n".as_slice()
    );
    Ok(())
}

#[test]
fn a_text_is_cut_into_lines(rt: HostRuntime) -> Result<(), Fail> {
    let text = b"goal 0\n\nsame 0";
    let line = |start, end, next| Piece::Line { start, end, next };
    for (at, piece) in [
        (0, line(0, 6, 7)),
        (3, line(3, 6, 7)),
        (7, line(7, 7, 8)),
        (8, Piece::Partial),
        (13, Piece::Partial),
        (14, Piece::End),
    ] {
        assert_eq!(rt; next_line(text, at), piece, "at {at}");
    }
    Ok(())
}
