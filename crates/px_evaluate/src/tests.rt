use crate::evaluate;
use px_terms::{ConDef, DataDef, Def, Fun, Head, Names, Program, Term, Ty, Value};
use sqlite_items::{Boxed, Items};
use std::alloc::{AllocError, Global};
use std::test::Fail;

const DEEP: u32 = 100;

fn truth(alloc: Global, con: u32) -> Term {
    Term::Con {
        datatype: 0,
        con,
        types: Items::new(alloc),
        fields: Items::new(alloc),
    }
}

fn bool_type(alloc: Global) -> Ty {
    Ty::Con {
        datatype: 0,
        args: Items::new(alloc),
    }
}

fn constructor(alloc: Global) -> ConDef {
    ConDef {
        fields: Items::new(alloc),
    }
}

/// `def or(a: Bool, b: Bool): Bool { match a { False => b, True => True } }`
fn or_definition(alloc: Global) -> Result<Def, Fail> {
    let mut params = Items::new(alloc);
    params.push(bool_type(alloc))?;
    params.push(bool_type(alloc))?;
    let mut arms = Items::new(alloc);
    arms.push(Term::Free(1))?;
    arms.push(truth(alloc, 1))?;
    Ok(Def {
        tparams: 0,
        funs: Items::new(alloc),
        params,
        result: bool_type(alloc),
        body: Term::Match {
            on: Boxed::new(alloc, Term::Free(0))?,
            datatype: 0,
            types: Items::new(alloc),
            arms,
        },
        seen: 0,
    })
}

/// The program of that definition, without names and obligations, which no meaning looks at.
fn or_program(alloc: Global) -> Result<Program, Fail> {
    let mut cons = Items::new(alloc);
    cons.push(constructor(alloc))?;
    cons.push(constructor(alloc))?;
    let mut datatypes = Items::new(alloc);
    datatypes.push(DataDef { tparams: 0, cons })?;
    let mut defs = Items::new(alloc);
    defs.push(or_definition(alloc)?)?;
    Ok(Program {
        datatypes,
        defs,
        lemmas: Items::new(alloc),
        declared: Items::new(alloc),
        replicas: Items::new(alloc),
        names: Names {
            datatypes: Items::new(alloc),
            cons: Items::new(alloc),
            defs: Items::new(alloc),
            lemmas: Items::new(alloc),
            replicas: Items::new(alloc),
        },
    })
}

fn or(alloc: Global, left: Term, right: Term) -> Result<Term, AllocError> {
    let mut args = Items::new(alloc);
    args.push(left)?;
    args.push(right)?;
    Ok(Term::Call {
        fun: Fun {
            head: Head::Def(0),
            types: Items::new(alloc),
        },
        funs: Items::new(alloc),
        args,
    })
}

/// The number of the constructor that a closed term means, with its calls; None where it has no value.
fn found(alloc: Global, term: &Term, fuel: u32) -> Result<Option<(u32, u64)>, Fail> {
    let program = or_program(alloc)?;
    let values: Items<Value> = Items::new(alloc);
    let Some(found) = evaluate(alloc, &program, fuel, values.as_slice(), term)? else {
        return Ok(None);
    };
    match &found.value {
        Value::Con { con, .. } => Ok(Some((*con, found.calls))),
        Value::Lit(_) => Ok(None),
    }
}

#[test]
fn or_has_its_truth_table(rt: HostRuntime) -> Result<(), Fail> {
    let alloc = rt.alloc();
    for (left, right, result) in [(0, 0, 0), (0, 1, 1), (1, 0, 1), (1, 1, 1)] {
        let term = or(alloc, truth(alloc, left), truth(alloc, right))?;
        assert_eq!(rt; found(alloc, &term, DEEP)?, Some((result, 1)));
    }
    Ok(())
}

#[test]
fn calls_are_counted_where_there_is_a_value(rt: HostRuntime) -> Result<(), Fail> {
    let alloc = rt.alloc();
    let inner = or(alloc, truth(alloc, 1), truth(alloc, 0))?;
    let term = or(alloc, inner, truth(alloc, 0))?;
    for (fuel, result) in [(DEEP, Some((1, 2))), (2, None)] {
        assert_eq!(rt; found(alloc, &term, fuel)?, result, "fuel {fuel}");
    }
    assert_eq!(rt; found(alloc, &Term::Free(0), DEEP)?, None);
    Ok(())
}

/// `match Pair(1, 2) { Pair(a, b) => wle(..) }` on the two pattern variables in this order.
fn compare_fields(alloc: Global, left: u32, right: u32) -> Result<Term, AllocError> {
    let mut fields = Items::new(alloc);
    fields.push(Term::Lit(1))?;
    fields.push(Term::Lit(2))?;
    let mut args = Items::new(alloc);
    args.push(Term::Bound(left))?;
    args.push(Term::Bound(right))?;
    let mut arms = Items::new(alloc);
    arms.push(Term::Call {
        fun: Fun {
            head: Head::Wle,
            types: Items::new(alloc),
        },
        funs: Items::new(alloc),
        args,
    })?;
    Ok(Term::Match {
        on: Boxed::new(
            alloc,
            Term::Con {
                datatype: 1,
                con: 0,
                types: Items::new(alloc),
                fields,
            },
        )?,
        datatype: 1,
        types: Items::new(alloc),
        arms,
    })
}

#[test]
fn the_last_field_is_the_innermost(rt: HostRuntime) -> Result<(), Fail> {
    let alloc = rt.alloc();
    for (left, right, result) in [(1, 0, 1), (0, 1, 0), (0, 0, 1)] {
        let term = compare_fields(alloc, left, right)?;
        assert_eq!(rt;
            found(alloc, &term, DEEP)?,
            Some((result, 0)),
            "{left} {right}"
        );
    }
    assert_eq!(rt; found(alloc, &compare_fields(alloc, 0, 2)?, DEEP)?, None);
    Ok(())
}
