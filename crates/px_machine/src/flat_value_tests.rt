use crate::{Cell, FlatValue, is_value};
use px_base::{Names, Text};
use sqlite_items::Items;
use std::alloc::{AllocError, Global};
use std::test::Fail;

const LEVELS: usize = 200_000;

/// The names of `data List { Nil, Cons(..) }` behind those of `Bool`.
fn names(alloc: Global) -> Result<Names, AllocError> {
    let mut cons = Items::new(alloc);
    cons.push(texts(alloc, ["False", "True"])?)?;
    cons.push(texts(alloc, ["Nil", "Cons"])?)?;
    Ok(Names {
        datatypes: Items::new(alloc),
        cons,
        defs: Items::new(alloc),
        lemmas: Items::new(alloc),
        replicas: Items::new(alloc),
    })
}

fn texts(alloc: Global, words: [&str; 2]) -> Result<Items<Text>, AllocError> {
    let mut texts = Items::new(alloc);
    for word in words {
        texts.push(Text::new(String::from_str(alloc, word)?))?;
    }
    Ok(texts)
}

/// The value of these cells, where they are one's.
fn read(alloc: Global, cells: &[Cell]) -> Result<Option<FlatValue>, AllocError> {
    if !is_value(cells) {
        return Ok(None);
    }
    Ok(Some(FlatValue::from_cells(Items::from_slice(alloc, cells)?)))
}

/// The list of this word and the rest.
fn cons(alloc: Global, word: u64, rest: FlatValue) -> Result<FlatValue, Fail> {
    let mut fields = Items::new(alloc);
    fields.push(FlatValue::literal(alloc, word)?)?;
    fields.push(rest)?;
    Ok(FlatValue::make(alloc, 1, 1, fields.as_slice())?)
}

fn constructor(con: u32, fields: u32) -> Cell {
    Cell::Con {
        datatype: 1,
        con,
        fields,
    }
}

#[test]
fn values_print(rt: HostRuntime) -> Result<(), Fail> {
    let alloc = rt.alloc();
    let nothing = FlatValue::make(alloc, 1, 0, &[])?;
    let list = cons(alloc, 1, cons(alloc, u64::MAX, nothing)?)?;
    let text = list.print(alloc, &names(alloc)?)?;
    assert_eq!(rt;
        text.as_slice(),
        b"Cons(1, Cons(18446744073709551615, Nil))".as_slice()
    );
    let text = FlatValue::literal(alloc, 0)?.print(alloc, &names(alloc)?)?;
    assert_eq!(rt; text.as_slice(), b"0".as_slice());
    Ok(())
}

#[test]
fn cells_of_one_value_are_told(rt: HostRuntime) -> Result<(), Fail> {
    let alloc = rt.alloc();
    assert!(rt; is_value(&[constructor(1, 2), Cell::Lit(7), constructor(0, 0)]));
    assert!(rt; !is_value(&[]));
    assert!(rt; !is_value(&[constructor(1, 2), Cell::Lit(7)]));
    assert!(rt; !is_value(&[constructor(0, 0), Cell::Lit(7)]));
    let list = cons(alloc, 7, FlatValue::make(alloc, 1, 0, &[])?)?;
    assert!(rt; is_value(list.cells()));
    Ok(())
}

/// Constructors of one field around a word, as deep as there are levels.
fn nest(alloc: Global, word: u64) -> Result<Option<FlatValue>, AllocError> {
    let mut cells = Vec::new(alloc);
    for _ in 0..LEVELS {
        cells.push(constructor(1, 1))?;
    }
    cells.push(Cell::Lit(word))?;
    read(alloc, cells.as_slice())
}

#[test]
fn a_deep_value_takes_no_stack(rt: HostRuntime) -> Result<(), Fail> {
    let alloc = rt.alloc();
    let (Some(deep), Some(other)) = (nest(alloc, 1)?, nest(alloc, 2)?) else {
        return Err(Fail::from("the cells are no value"));
    };
    assert!(rt; deep.same(&deep.copy(alloc)?));
    assert!(rt; !deep.same(&other));
    assert_eq!(rt; deep.size(), LEVELS + 1);
    let text = deep.print(alloc, &names(alloc)?)?;
    assert_eq!(rt; text.len(), 6 * LEVELS + 1);
    let Some(built) = deep.branch(alloc)? else {
        return Err(Fail::from("the value is a word"));
    };
    assert_eq!(rt; (built.datatype, built.con, built.fields.len()), (1, 1, 1));
    let made = FlatValue::make(alloc, 1, 1, built.fields.as_slice())?;
    assert!(rt; made.same(&deep));
    Ok(())
}
