ghost use Rattle.std.specs.Prelude.{◌≡◌, ◌∷◌, [], IfOk};
ghost use Rattle.px_props.specs.Signatures.{IsCounted};

use crate::{ClauseEnd, clause_of};
use px_terms::{
    Clause, Def, Equation, FnType, Head, Names, Program, Prop, PropSet, Term, Ty, same_ty,
};
use sqlite_items::Items;
use std::alloc::{AllocError, Global};
use std::test::Fail;

fn one<T: Drop>(alloc: Global, item: T) -> Result<Items<T>, AllocError>
    ensures { IfOk result (λ made. made ≡ item ∷ []) }
{
    let mut items = Items::new(alloc);
    items.push(item)?;
    Ok(items)
}

/// The program of `def f<A>(g: fn(A) -> A, l: Word, x: A, y: A): A`.
fn program(alloc: Global) -> Result<Program, AllocError>
    ensures { IfOk result (λ made. IsCounted made [] (Head.Def 0)) }
{
    let mut params = one(alloc, Ty::Word)?;
    params.push(Ty::Var(0))?;
    params.push(Ty::Var(0))?;
    let function = FnType {
        params: one(alloc, Ty::Var(0))?,
        result: Ty::Var(0),
        props: PropSet { has: [false; 11] },
    };
    let def = Def {
        tparams: 1,
        funs: one(alloc, function)?,
        params,
        result: Ty::Var(0),
        body: Term::Free(1),
        seen: 0,
    };
    Ok(Program {
        datatypes: Items::new(alloc),
        defs: one(alloc, def)?,
        lemmas: Items::new(alloc),
        declared: Items::new(alloc),
        replicas: Items::new(alloc),
        names: Names {
            datatypes: Items::new(alloc),
            cons: Items::new(alloc),
            defs: Items::new(alloc),
            lemmas: Items::new(alloc),
            replicas: Items::new(alloc),
        },
    })
}

/// The term, with `f` for what is called and a number for a variable.
fn write_term(term: &Term, text: &mut String) -> Result<(), AllocError> {
    match term {
        Term::Free(number) => text.push_str(["0", "1", "2", "3"][*number as usize % 4]),
        Term::Con { con, .. } => text.push_str(if *con == 0 { "False" } else { "True" }),
        Term::Call { args, .. } => {
            text.push_str("f(")?;
            for (at, argument) in args.as_slice().iter().enumerate() {
                if at > 0 {
                    text.push_str(",")?;
                }
                write_term(argument, text)?;
            }
            text.push_str(")")
        }
        _ => text.push_str("?"),
    }
}

/// The equations, each with what stands before it.
fn write_equations(
    equations: &[Equation],
    before: &str,
    text: &mut String,
) -> Result<(), AllocError> {
    for equation in equations {
        text.push_str(before)?;
        write_term(&equation.left, text)?;
        text.push_str(" = ")?;
        write_term(&equation.right, text)?;
    }
    Ok(())
}

/// What the clause says: the premises after `if`, and the alternatives after `or`.
fn said(alloc: Global, clause: &Clause) -> Result<String, AllocError> {
    let mut text = String::new(alloc);
    write_equations(clause.premises.as_slice(), " if ", &mut text)?;
    write_equations(clause.alternatives.as_slice(), " or ", &mut text)?;
    Ok(text)
}

#[test]
fn the_clauses_are_those_of_the_table(rt: HostRuntime) -> Result<(), Fail> {
    let alloc = rt.alloc();
    let program = program(alloc)?;
    for (prop, wanted) in [
        (Prop::Comm, " or f(0,1,2) = f(0,2,1)"),
        (Prop::Assoc, " or f(0,f(0,1,2),3) = f(0,1,f(0,2,3))"),
        (Prop::Idem, " or f(0,1,1) = 1"),
        (Prop::Sel, " or f(0,1,2) = 1 or f(0,1,2) = 2"),
    ] {
        let clause = clause_of(alloc, &program, Head::Def(0), &[], prop)?;
        assert_eq!(rt; said(alloc, &clause)?.as_str(), wanted);
        assert_eq!(rt; clause.tparams, 1);
    }
    for (prop, wanted) in [
        (Prop::Refl, " or f(0,0) = True"),
        (Prop::Irrefl, " or f(0,0) = False"),
        (Prop::Sym, " if f(0,1) = True or f(1,0) = True"),
        (Prop::Antisym, " if f(0,1) = True if f(1,0) = True or 0 = 1"),
        (Prop::Asym, " if f(0,1) = True or f(1,0) = False"),
        (
            Prop::Trans,
            " if f(0,1) = True if f(1,2) = True or f(0,2) = True",
        ),
        (Prop::Conn, " if f(0,1) = False or f(1,0) = True"),
    ] {
        let clause = clause_of(alloc, &program, Head::Wle, &[], prop)?;
        assert_eq!(rt; said(alloc, &clause)?.as_str(), wanted);
        match clause_of(alloc, &program, Head::Def(0), &[], prop) {
            Ok(_clause) => assert!(rt; false),
            Err(end) => assert_eq!(rt; end, ClauseEnd::Shape),
        }
    }
    Ok(())
}
