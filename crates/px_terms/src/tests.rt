use crate::{
    Equation, EquationList, FnType, Fun, Head, NoMemory, Path, PropSet, Side, Sigma, Term, Ty,
    at_path, copy, copy_equations, copy_fn_type, depth, instance, put, put_equations, replace_at,
    same_term, same_ty, size, size_of_instance,
};
use sqlite_items::{Boxed, Items};
use std::alloc::Global;
use std::test::Fail;

/// A constructor with these fields, and no types.
fn con(alloc: Global, fields: Items<Term>) -> Term {
    Term::Con {
        datatype: 1,
        con: 2,
        types: Items::new(alloc),
        fields,
    }
}

fn one_type(alloc: Global, ty: Ty) -> Result<Items<Ty>, NoMemory> {
    let mut items = Items::new(alloc);
    items.push(ty)?;
    Ok(items)
}

fn one_function(alloc: Global, fun: Fun) -> Result<Items<Fun>, NoMemory> {
    let mut items = Items::new(alloc);
    items.push(fun)?;
    Ok(items)
}

fn one_term(alloc: Global, t: Term) -> Result<Items<Term>, NoMemory> {
    let mut items = Items::new(alloc);
    items.push(t)?;
    Ok(items)
}

fn two_terms(alloc: Global, first: Term, second: Term) -> Result<Items<Term>, NoMemory> {
    let mut items = one_term(alloc, first)?;
    items.push(second)?;
    Ok(items)
}

/// A constructor with this term in each of so many fields.
fn wide(alloc: Global, field: &Term, count: u32) -> Result<Term, NoMemory> {
    let mut fields = Items::new(alloc);
    for _ in 0..count {
        fields.push(copy(alloc, field)?)?;
    }
    Ok(con(alloc, fields))
}

/// A nest of so many constructors with this term inside.
fn deep(alloc: Global, inside: Term, count: u32) -> Result<Term, NoMemory> {
    let mut nest = inside;
    for _ in 0..count {
        let fields = one_term(alloc, nest)?;
        nest = con(alloc, fields);
    }
    Ok(nest)
}

fn fun(alloc: Global, head: Head, ty: Ty) -> Result<Fun, NoMemory> {
    Ok(Fun {
        head,
        types: one_type(alloc, ty)?,
    })
}

/// What stands for the first type, function and free variable: a word, a definition and a literal.
fn first_of_each(alloc: Global) -> Result<Sigma, NoMemory> {
    let types = one_type(alloc, Ty::Word)?;
    let funs = one_function(alloc, fun(alloc, Head::Def(9), Ty::Word)?)?;
    let terms = one_term(alloc, Term::Lit(7))?;
    Ok(Sigma { types, funs, terms })
}

/// A call of this function with this function argument and these arguments.
fn call(alloc: Global, function: Fun, argument: Fun, args: Items<Term>) -> Result<Term, NoMemory> {
    let funs = one_function(alloc, argument)?;
    Ok(Term::Call {
        fun: function,
        funs,
        args,
    })
}

/// A match with a pattern variable as its first arm and this term as its second.
fn choice(alloc: Global, ty: Ty, on: Term, arm: Term) -> Result<Term, NoMemory> {
    let arms = two_terms(alloc, Term::Bound(0), arm)?;
    let types = one_type(alloc, ty)?;
    Ok(Term::Match {
        on: Boxed::new(alloc, on)?,
        datatype: 0,
        types,
        arms,
    })
}

/// A match on a constructor of a literal and this term, with a literal as its second arm.
fn matched(alloc: Global, inner: Term, arm: u64) -> Result<Term, NoMemory> {
    let on = con(alloc, two_terms(alloc, Term::Lit(1), inner)?);
    choice(alloc, Ty::Var(0), on, Term::Lit(arm))
}

/// A call with a function argument, whose arguments are a variable and such a match.
fn sample(
    alloc: Global,
    head: Head,
    argument: u32,
    inner: Term,
    arm: u64,
) -> Result<Term, NoMemory> {
    let args = two_terms(alloc, Term::Free(0), matched(alloc, inner, arm)?)?;
    let function = fun(alloc, head, Ty::Word)?;
    let argument = fun(alloc, Head::Def(argument), Ty::Word)?;
    call(alloc, function, argument, args)
}

/// The place of these child numbers.
fn place(alloc: Global, children: &[u32]) -> Result<Path, NoMemory> {
    let mut path = Path::new(alloc);
    for child in children {
        path.push(*child)?;
    }
    Ok(path)
}

/// Whether the copy of the term is the term.
fn copy_is_same(alloc: Global, t: &Term) -> Result<bool, NoMemory> {
    let made = copy(alloc, t)?;
    Ok(same_term(&made, t))
}

/// Whether the term's instance is that term, and was counted so before it was made.
fn instance_is(alloc: Global, t: &Term, want: &Term) -> Result<bool, NoMemory> {
    let sigma = first_of_each(alloc)?;
    let counted = size_of_instance(t, &sigma);
    let made = instance(alloc, t, &sigma)?;
    Ok(same_term(&made, want) && counted == size(want))
}

/// Whether the term with a literal put in for the first variable is that term.
fn put_is(alloc: Global, t: &Term, want: &Term) -> Result<bool, NoMemory> {
    let made = put(alloc, t, 0, &Term::Lit(7))?;
    Ok(same_term(&made, want))
}

/// Whether the term has that part at the place.
fn part_is(alloc: Global, t: &Term, children: &[u32], want: &Term) -> Result<bool, NoMemory> {
    let path = place(alloc, children)?;
    match at_path(t, &path) {
        Some(part) => Ok(same_term(part, want)),
        None => Ok(false),
    }
}

/// Whether the term with a literal at the place is that term.
fn replaced_is(alloc: Global, t: &Term, children: &[u32], want: &Term) -> Result<bool, NoMemory> {
    let path = place(alloc, children)?;
    match replace_at(alloc, t, &path, &Term::Lit(8))? {
        Some(made) => Ok(same_term(&made, want)),
        None => Ok(false),
    }
}

/// Whether the term has no such place, and nothing is replaced there.
fn is_absent(alloc: Global, t: &Term, children: &[u32]) -> Result<bool, NoMemory> {
    let path = place(alloc, children)?;
    let made = replace_at(alloc, t, &path, &Term::Lit(8))?;
    Ok(made.is_none() && at_path(t, &path).is_none())
}

#[test]
fn takes_a_million_fields(rt: HostRuntime) -> Result<(), Fail> {
    let alloc = rt.alloc();
    let variables = wide(alloc, &Term::Free(0), 1_000_000)?;
    assert_eq!(rt; size(&variables), 1_000_001);
    assert_eq!(rt; depth(&variables), 2);
    assert!(rt; copy_is_same(alloc, &variables)?);
    let literals = wide(alloc, &Term::Lit(7), 1_000_000)?;
    assert!(rt; instance_is(alloc, &variables, &literals)?);
    assert!(rt; !same_term(&variables, &literals));
    Ok(())
}

#[test]
fn takes_a_deep_nest(rt: HostRuntime) -> Result<(), Fail> {
    let alloc = rt.alloc();
    let variable = deep(alloc, Term::Free(0), 1_000)?;
    assert_eq!(rt; size(&variable), 1_001);
    assert_eq!(rt; depth(&variable), 1_001);
    assert!(rt; copy_is_same(alloc, &variable)?);
    let literal = deep(alloc, Term::Lit(7), 1_000)?;
    assert!(rt; instance_is(alloc, &variable, &literal)?);
    assert!(rt; put_is(alloc, &variable, &literal)?);
    Ok(())
}

#[test]
fn finds_and_replaces_parts(rt: HostRuntime) -> Result<(), Fail> {
    let alloc = rt.alloc();
    let term = sample(alloc, Head::Def(4), 5, Term::Free(2), 6)?;
    assert!(rt; part_is(alloc, &term, &[1, 0, 1], &Term::Free(2))?);
    assert!(rt; part_is(alloc, &term, &[], &term)?);
    let replaced = sample(alloc, Head::Def(4), 5, Term::Lit(8), 6)?;
    assert!(rt; replaced_is(alloc, &term, &[1, 0, 1], &replaced)?);
    for absent in [[1, 1], [2, 0], [0, 0]] {
        assert!(rt; is_absent(alloc, &term, &absent)?);
    }
    Ok(())
}

/// Whether there is one equation, of a variable or literal on the left and a literal on the right.
fn is_one_equation(equations: &[Equation], left: &Term, right: u64) -> bool {
    match equations {
        [e] => same_term(&e.left, left) && same_term(&e.right, &Term::Lit(right)),
        _ => false,
    }
}

#[test]
fn changes_sides_of_equations(rt: HostRuntime) -> Result<(), Fail> {
    let alloc = rt.alloc();
    let mut equations = EquationList::new(alloc);
    equations.push(Equation {
        left: Term::Free(0),
        right: Term::Free(1),
    })?;
    let copies = copy_equations(alloc, equations.as_slice())?;
    let mut done = put_equations(alloc, copies.as_slice(), 1, &Term::Lit(3))?;
    assert!(rt; is_one_equation(done.as_slice(), &Term::Free(0), 3));
    assert_eq!(rt; done.as_slice().len(), 1);
    done.set_side(0, Side::Left, Term::Lit(4));
    assert!(rt; is_one_equation(done.as_slice(), &Term::Lit(4), 3));
    Ok(())
}

#[test]
fn copies_a_parameter_type(rt: HostRuntime) -> Result<(), Fail> {
    let alloc = rt.alloc();
    let signature = FnType {
        params: one_type(alloc, Ty::Var(1))?,
        result: Ty::Var(2),
        props: PropSet { has: [false; 11] },
    };
    let other = copy_fn_type(alloc, &signature)?;
    assert!(rt; same_ty(&other.result, &signature.result));
    assert_eq!(rt; other.props, signature.props);
    assert_eq!(rt; other.params.len(), 1);
    Ok(())
}
