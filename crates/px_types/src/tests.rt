ghost use Rattle.std.specs.Prelude.{◌≡◌, ◌<◌, ◌∷◌, [], length, IfOk};
ghost use Rattle.px_types.specs.TypeOf.{HasConstructors};

use crate::{NotTyped, type_of};
use px_terms::{
    ConDef, Context, DataDef, Declared, Def, FnType, Fun, Head, Names, Program, Prop, PropSet,
    Term, Ty,
};
use sqlite_items::{Boxed, Items};
use std::alloc::{AllocError, Global};
use std::test::Fail;

fn none<T>(alloc: Global) -> Items<T> {
    Items::new(alloc)
}

fn one<T: Drop>(alloc: Global, item: T) -> Result<Items<T>, AllocError>
    ensures { IfOk result (λ made. made ≡ item ∷ []) }
{
    let mut items = Items::new(alloc);
    items.push(item)?;
    Ok(items)
}

fn two<T: Drop>(alloc: Global, first: T, second: T) -> Result<Items<T>, AllocError>
    ensures { IfOk result (λ made. made ≡ first ∷ second ∷ []) }
{
    let mut items = Items::new(alloc);
    items.push(first)?;
    items.push(second)?;
    Ok(items)
}

/// A list of such elements.
fn list_of(alloc: Global, element: Ty) -> Result<Ty, AllocError> {
    Ok(Ty::Con {
        datatype: 1,
        args: one(alloc, element)?,
    })
}

fn truth(alloc: Global) -> Ty {
    Ty::Con {
        datatype: 0,
        args: none(alloc),
    }
}

/// `data Bool = False | True`.
fn bool_data(alloc: Global) -> Result<DataDef, AllocError>
    ensures { IfOk result (λ made. 0 < length made.cons) }
{
    Ok(DataDef {
        tparams: 0,
        cons: two(
            alloc,
            ConDef {
                fields: none(alloc),
            },
            ConDef {
                fields: none(alloc),
            },
        )?,
    })
}

/// `data List<A> = Nil | Cons(A, List<A>)`.
fn list_data(alloc: Global) -> Result<DataDef, AllocError>
    ensures { IfOk result (λ made. 0 < length made.cons) }
{
    let fields = two(alloc, Ty::Var(0), list_of(alloc, Ty::Var(0))?)?;
    let nil = ConDef {
        fields: none(alloc),
    };
    Ok(DataDef {
        tparams: 1,
        cons: two(alloc, nil, ConDef { fields })?,
    })
}

/// The set of `refl` alone.
fn refl() -> PropSet {
    PropSet {
        has: [
            false, false, false, false, true, false, false, false, false, false, false,
        ],
    }
}

/// `def like<A>(f: fn(A, A) -> Bool with refl, x: A, y: A): Bool`.
fn like(alloc: Global) -> Result<Def, AllocError> {
    let wanted = FnType {
        params: two(alloc, Ty::Var(0), Ty::Var(0))?,
        result: truth(alloc),
        props: refl(),
    };
    Ok(Def {
        tparams: 1,
        funs: one(alloc, wanted)?,
        params: two(alloc, Ty::Var(0), Ty::Var(0))?,
        result: truth(alloc),
        body: Term::Lit(0),
        seen: 0,
    })
}

/// `def below(x: Word, y: Word): Bool`.
fn below(alloc: Global) -> Result<Def, AllocError> {
    Ok(Def {
        tparams: 0,
        funs: none(alloc),
        params: two(alloc, Ty::Word, Ty::Word)?,
        result: truth(alloc),
        body: Term::Lit(0),
        seen: 0,
    })
}

/// The two definitions over `Bool` and `List`, and twice the second, once with the property `conn` and once with `trans`.
fn program(alloc: Global) -> Result<Program, AllocError>
    ensures { IfOk result (λ made. HasConstructors made) }
{
    let mut defs = two(alloc, like(alloc)?, below(alloc)?)?;
    defs.push(below(alloc)?)?;
    let conn = Declared::Property {
        def: 1,
        prop: Prop::Conn,
    };
    let trans = Declared::Property {
        def: 2,
        prop: Prop::Trans,
    };
    Ok(Program {
        datatypes: two(alloc, bool_data(alloc)?, list_data(alloc)?)?,
        defs,
        lemmas: none(alloc),
        declared: two(alloc, conn, trans)?,
        replicas: none(alloc),
        names: Names {
            datatypes: none(alloc),
            cons: none(alloc),
            defs: none(alloc),
            lemmas: none(alloc),
            replicas: none(alloc),
        },
    })
}

/// A type parameter, a function from it to itself, and the variables of a word, of a list of words, and of the parameter;
/// between them one that is no longer live.
fn context(alloc: Global) -> Result<Context, AllocError> {
    let own = FnType {
        params: one(alloc, Ty::Var(0))?,
        result: Ty::Var(0),
        props: refl(),
    };
    let mut vars = two(alloc, Some(Ty::Word), None)?;
    vars.push(Some(list_of(alloc, Ty::Word)?))?;
    vars.push(Some(Ty::Var(0)))?;
    Ok(Context {
        tparams: 1,
        funs: one(alloc, own)?,
        vars,
    })
}

fn nil(alloc: Global, types: Items<Ty>) -> Term {
    Term::Con {
        datatype: 1,
        con: 0,
        types,
        fields: none(alloc),
    }
}

fn cons(alloc: Global, first: Term, rest: Term) -> Result<Term, AllocError> {
    Ok(Term::Con {
        datatype: 1,
        con: 1,
        types: one(alloc, Ty::Word)?,
        fields: two(alloc, first, rest)?,
    })
}

fn call(alloc: Global, head: Head, args: Items<Term>) -> Term {
    let fun = Fun {
        head,
        types: none(alloc),
    };
    Term::Call {
        fun,
        funs: none(alloc),
        args,
    }
}

/// `like` at this type with this function, of the first variable and a literal.
fn like_by(alloc: Global, ty: Ty, head: Head) -> Result<Term, AllocError> {
    let by = Fun {
        head,
        types: none(alloc),
    };
    Ok(Term::Call {
        fun: Fun {
            head: Head::Def(0),
            types: one(alloc, ty)?,
        },
        funs: one(alloc, by)?,
        args: two(alloc, Term::Free(0), Term::Lit(1))?,
    })
}

/// A match on the list of words.
fn on_list(alloc: Global, ty: Ty, arms: Items<Term>) -> Result<Term, AllocError> {
    Ok(Term::Match {
        on: Boxed::new(alloc, Term::Free(2))?,
        datatype: 1,
        types: one(alloc, ty)?,
        arms,
    })
}

/// The type's name.
fn named(ty: &Ty) -> &'static str {
    match ty {
        Ty::Word => "Word",
        Ty::Var(_number) => "A",
        Ty::Con { datatype: 0, args } => { if args.is_empty() { "Bool" } else { "?" } }
        Ty::Con { datatype: _, args } => match args.as_slice() {
            [Ty::Word] => "List<Word>",
            [Ty::Var(_number)] => "List<A>",
            _ => "?",
        },
    }
}

/// What the type of the term is called; nothing where it has none.
fn typed(alloc: Global, term: &Term) -> Result<&'static str, Fail> {
    let program = program(alloc)?;
    let context = context(alloc)?;
    match type_of(alloc, &program, &context, term) {
        Ok(ty) => Ok(named(&ty)),
        Err(NotTyped::IllTyped) => Ok(""),
        Err(NotTyped::NoMemory) => Ok("no memory"),
    }
}

#[test]
fn variables_and_literals_have_types(rt: HostRuntime) -> Result<(), Fail> {
    let alloc = rt.alloc();
    assert_eq!(rt; typed(alloc, &Term::Free(0))?, "Word");
    assert_eq!(rt; typed(alloc, &Term::Free(1))?, "", "no longer live");
    assert_eq!(rt; typed(alloc, &Term::Free(2))?, "List<Word>");
    assert_eq!(rt; typed(alloc, &Term::Free(3))?, "A");
    assert_eq!(rt; typed(alloc, &Term::Free(4))?, "", "not there");
    assert_eq!(rt; typed(alloc, &Term::Bound(0))?, "", "no arm around it");
    assert_eq!(rt;
        typed(alloc, &Term::Lit(18_446_744_073_709_551_615))?,
        "Word"
    );
    Ok(())
}

#[test]
fn constructions_have_types(rt: HostRuntime) -> Result<(), Fail> {
    let alloc = rt.alloc();
    let words = nil(alloc, one(alloc, Ty::Word)?);
    assert_eq!(rt; typed(alloc, &words)?, "List<Word>");
    let own = nil(alloc, one(alloc, Ty::Var(0))?);
    assert_eq!(rt; typed(alloc, &own)?, "List<A>");
    let foreign = nil(alloc, one(alloc, Ty::Var(1))?);
    assert_eq!(rt; typed(alloc, &foreign)?, "", "no such type parameter");
    let bare = nil(alloc, none(alloc));
    assert_eq!(rt; typed(alloc, &bare)?, "", "too few types");
    let right = cons(alloc, Term::Free(0), Term::Free(2))?;
    assert_eq!(rt; typed(alloc, &right)?, "List<Word>");
    let turned = cons(alloc, Term::Free(2), Term::Free(0))?;
    assert_eq!(rt; typed(alloc, &turned)?, "", "the fields turned round");
    Ok(())
}

#[test]
fn calls_have_types(rt: HostRuntime) -> Result<(), Fail> {
    let alloc = rt.alloc();
    let both = call(alloc, Head::Wle, two(alloc, Term::Free(0), Term::Lit(1))?);
    assert_eq!(rt; typed(alloc, &both)?, "Bool");
    let half = call(alloc, Head::Weq, one(alloc, Term::Free(0))?);
    assert_eq!(rt; typed(alloc, &half)?, "", "too few values");
    let own = call(alloc, Head::FnVar(0), one(alloc, Term::Free(3))?);
    assert_eq!(rt; typed(alloc, &own)?, "A");
    let other = call(alloc, Head::FnVar(0), one(alloc, Term::Free(0))?);
    assert_eq!(rt; typed(alloc, &other)?, "", "another type of value");
    for (head, want) in [
        (Head::Weq, "Bool"),
        (Head::Wle, "Bool"),
        (Head::Def(1), "Bool"),
        (Head::Def(2), ""),
        (Head::Def(0), ""),
        (Head::FnVar(0), ""),
    ] {
        let term = like_by(alloc, Ty::Word, head)?;
        assert_eq!(rt; typed(alloc, &term)?, want);
    }
    let lists = like_by(alloc, list_of(alloc, Ty::Word)?, Head::Weq)?;
    assert_eq!(rt;
        typed(alloc, &lists)?,
        "",
        "a function of words for one of lists"
    );
    Ok(())
}

#[test]
fn matches_have_types(rt: HostRuntime) -> Result<(), Fail> {
    let alloc = rt.alloc();
    let first = on_list(alloc, Ty::Word, two(alloc, Term::Lit(0), Term::Bound(1))?)?;
    assert_eq!(rt; typed(alloc, &first)?, "Word");
    let rest = on_list(alloc, Ty::Word, two(alloc, Term::Free(2), Term::Bound(0))?)?;
    assert_eq!(rt; typed(alloc, &rest)?, "List<Word>");
    let unlike = on_list(alloc, Ty::Word, two(alloc, Term::Lit(0), Term::Bound(0))?)?;
    assert_eq!(rt; typed(alloc, &unlike)?, "", "arms of two types");
    let missing = on_list(alloc, Ty::Word, one(alloc, Term::Lit(0))?)?;
    assert_eq!(rt; typed(alloc, &missing)?, "", "an arm missing");
    let other = on_list(alloc, Ty::Var(0), two(alloc, Term::Lit(0), Term::Lit(0))?)?;
    assert_eq!(rt; typed(alloc, &other)?, "", "another type of list");
    let past = on_list(alloc, Ty::Word, two(alloc, Term::Lit(0), Term::Bound(2))?)?;
    assert_eq!(rt; typed(alloc, &past)?, "", "no such field");
    Ok(())
}
