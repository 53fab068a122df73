//! Small programs over `data Nat { Z, S(Nat) }`, whose definitions take two numbers. A body is written as its parts come
//! off a stack: `a` and `b` are the parameters, `p` and `q` the pattern variables counted from the inside, `Z` and `S`
//! the constructors, `F` and `G` calls of the first and the second definition, and `m` a match with its two arms.

use crate::{NoDescent, check_descent};
use px_terms::{ConDef, DataDef, Def, Fun, Head, Names, Program, Term, Ty};
use sqlite_items::{Boxed, Items};
use std::alloc::{AllocError, Global};
use std::test::Fail;

fn one<T: Drop>(alloc: Global, item: T) -> Result<Items<T>, AllocError> {
    let mut items = Items::new(alloc);
    items.push(item)?;
    Ok(items)
}

fn two<T: Drop>(alloc: Global, first: T, second: T) -> Result<Items<T>, AllocError> {
    let mut items = one(alloc, first)?;
    items.push(second)?;
    Ok(items)
}

fn nat(alloc: Global) -> Ty {
    Ty::Con {
        datatype: 1,
        args: Items::new(alloc),
    }
}

/// `data Nat { Z, S(Nat) }`, and before it `Bool`, whose constructors no term here names.
fn datatypes(alloc: Global) -> Result<Items<DataDef>, AllocError> {
    let zero = ConDef {
        fields: Items::new(alloc),
    };
    let successor = ConDef {
        fields: one(alloc, nat(alloc))?,
    };
    let bool_data = DataDef {
        tparams: 0,
        cons: Items::new(alloc),
    };
    let nat_data = DataDef {
        tparams: 0,
        cons: two(alloc, zero, successor)?,
    };
    two(alloc, bool_data, nat_data)
}

fn number(alloc: Global, con: u32, fields: Items<Term>) -> Term {
    Term::Con {
        datatype: 1,
        con,
        types: Items::new(alloc),
        fields,
    }
}

fn call(alloc: Global, def: u32, first: Term, second: Term) -> Result<Term, AllocError> {
    Ok(Term::Call {
        fun: Fun {
            head: Head::Def(def),
            types: Items::new(alloc),
        },
        funs: Items::new(alloc),
        args: two(alloc, first, second)?,
    })
}

fn choice(alloc: Global, on: Term, zero: Term, successor: Term) -> Result<Term, AllocError> {
    Ok(Term::Match {
        on: Boxed::new(alloc, on)?,
        datatype: 1,
        types: Items::new(alloc),
        arms: two(alloc, zero, successor)?,
    })
}

/// What is on top of the stack; `Z` where there is nothing.
fn top(alloc: Global, stack: &mut Vec<Term>) -> Term {
    stack.pop().unwrap_or(number(alloc, 0, Items::new(alloc)))
}

/// The term that a letter makes of what is on the stack.
fn made(alloc: Global, letter: u8, stack: &mut Vec<Term>) -> Result<Term, AllocError> {
    let last = top(alloc, stack);
    match letter {
        b'S' => Ok(number(alloc, 1, one(alloc, last)?)),
        b'F' => call(alloc, 0, top(alloc, stack), last),
        b'G' => call(alloc, 1, top(alloc, stack), last),
        _ => {
            let zero = top(alloc, stack);
            choice(alloc, top(alloc, stack), zero, last)
        }
    }
}

fn body(alloc: Global, letters: &str) -> Result<Term, AllocError> {
    let mut stack = Vec::new(alloc);
    for letter in letters.bytes() {
        let term = match letter {
            b'a' => Term::Free(0),
            b'b' => Term::Free(1),
            b'p' => Term::Bound(0),
            b'q' => Term::Bound(1),
            b'Z' => number(alloc, 0, Items::new(alloc)),
            _ => made(alloc, letter, &mut stack)?,
        };
        stack.push(term)?;
    }
    Ok(top(alloc, &mut stack))
}

/// The program of the definitions with these bodies.
fn program(alloc: Global, bodies: &[&str]) -> Result<Program, AllocError> {
    let mut defs = Items::new(alloc);
    for letters in bodies {
        defs.push(Def {
            tparams: 0,
            funs: Items::new(alloc),
            params: two(alloc, nat(alloc), nat(alloc))?,
            result: nat(alloc),
            body: body(alloc, letters)?,
            seen: 0,
        })?;
    }
    Ok(Program {
        datatypes: datatypes(alloc)?,
        defs,
        lemmas: Items::new(alloc),
        declared: Items::new(alloc),
        replicas: Items::new(alloc),
        names: Names {
            datatypes: Items::new(alloc),
            cons: Items::new(alloc),
            defs: Items::new(alloc),
            lemmas: Items::new(alloc),
            replicas: Items::new(alloc),
        },
    })
}

#[test]
fn what_descends_is_told_from_what_does_not(rt: HostRuntime) -> Result<(), Fail> {
    let rows: [(&[&str], Option<(u32, u32)>); 13] = [
        (&[], None),
        (&["a"], None),
        (&["abpbFSm"], None),
        (&["abpbpbFmm"], None),
        (&["abpbqbFmm"], None),
        (&["abpbFSm", "abF"], None),
        (&["abF"], Some((0, 0))),
        (&["abbpFm"], Some((0, 0))),
        (&["abbpbSFaSpFmm"], Some((0, 0))),
        (&["abpabFFm"], Some((0, 1))),
        (&["abSbpbFqapFFmm"], Some((0, 2))),
        (&["abpbFSm", "abG"], Some((1, 0))),
        (&["abF", "abG"], Some((0, 0))),
    ];
    for (place, row) in rows.iter().enumerate() {
        let program = program(rt.alloc(), row.0)?;
        let expected = match row.1 {
            None => Ok(()),
            Some((def, call)) => Err(NoDescent { def, call }),
        };
        assert!(rt; check_descent(&program) == expected, "row {place}");
    }
    Ok(())
}
