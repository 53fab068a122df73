//! The type of a term where variables are in scope, at no place of the text: as in a sequent.
ghost use Rattle.std.specs.Prelude.{◌≡◌, map, IfOk, MatchResult};
ghost use Rattle.px_terms.specs.declared.types.Ty.{Ty as Kind};
ghost use Rattle.px_terms.specs.declared.types.Ty.TheVariants as kinds;
ghost use Rattle.px_terms.specs.Types.{ty_instance, tys_instance};
ghost use Rattle.px_terms.specs.Typing.{HasType, anywhere};
ghost use Rattle.px_types.specs.Bounds.{bound_of, here};
ghost use Rattle.px_types.specs.Envs.{tys_of};
ghost use Rattle.px_types.specs.Outcome.{agrees, same, type_of_variable};
ghost use Rattle.px_types.specs.TypeOf.{EndsWithout, Finds, HasConstructors, TypedHaveConstructors, TypesAreExact, arms_have, constructors_found, fields_found, literal_type, parts_have, type_found};
ghost use Rattle.px_types.specs.declared.typings.NotTyped.TheVariants as ends;

use crate::alike::{is_instance, is_same};
use crate::bounds::{Around, inside_arm, pattern_variable};
use crate::callees::{arguments_have, called_by};
use crate::env::Instances;
use crate::formed::is_datatype;
use crate::heads::{Called, built_in};
use crate::scope::Scope;
use px_terms::{
    ConDef, Context, NoMemory, Program, Term, Ty, copy_ty, copy_tys, instance_of_ty, same_tys,
};
use sqlite_items::{Items, at};
use std::alloc::{AllocError, Global};

/// Why a term has no type: it has none, or memory ran out.
#[derive(Clone, Copy, Debug, PartialEq, Eq)]
pub enum NotTyped {
    /// The term has no type where these variables are in scope.
    IllTyped,
    /// No memory was left.
    NoMemory,
}

impl From<NoMemory> for NotTyped {
    ghost from_gives = { λ _ end. end ≡ ends.NoMemory };

    fn from(_end: NoMemory) -> NotTyped {
        NotTyped::NoMemory
    }
}

impl From<AllocError> for NotTyped {
    ghost from_gives = { λ _ end. end ≡ ends.NoMemory };

    fn from(_end: AllocError) -> NotTyped {
        NotTyped::NoMemory
    }
}

/// The type of a term where these variables are in scope, at no place of the text: no type that is met is too large, each
/// definition may be called and passed, and of a definition all is known that the program declares of it. IllTyped exactly
/// where the term has no type.
///
/// It takes memory: the type of each part is made, one at a time; the type that it should have is not, nor are those of
/// functions that are passed. Its calls nest as deep as the term. For each definition that stands where a function with
/// properties is wanted it walks once over the program's obligations.
///
/// Each datatype of the program needs a constructor, as those of a typed program have: a match on a value of a datatype that
/// has none has every type.
pub fn type_of(
    alloc: Global,
    program: &Program,
    context: &Context,
    term: &Term,
) -> Result<Ty, NotTyped>
    requires { HasConstructors program.now }
    ensures ok { IfOk result (λ T. HasType program.now anywhere context.now term.now T) }
    // Where it has a type, this is the answer, besides want of memory.
    ensures only { (T : Kind) → HasType program.now anywhere context.now term.now T → MatchResult result (λ found. found ≡ T) (λ end. end ≡ NotTyped.NoMemory) }
    ensures ill { result ≡ Err NotTyped.IllTyped → (T : Kind) → ¬ HasType program.now anywhere context.now term.now T }
{
    let comparison = built_in(alloc)?;
    let scope = Scope {
        alloc,
        program,
        context,
        comparison: &comparison,
    };
    type_in(term, &scope, &Around::Outside)
}

/// The type of a term by its kind.
#[cycle(type_in)]
fn type_in(term: &Term, scope: &Scope, around: &Around) -> Result<Ty, NotTyped>
    ensures { Finds (type_found (here scope.now) term.now (bound_of around.now)) result }
{
    match term {
        Term::Free(number) => variable(scope, *number),
        Term::Bound(number) => pattern_variable(scope.alloc, around, *number as usize),
        Term::Lit(word) => Ok(word_type(*word)),
        Term::Con {
            datatype,
            con,
            types,
            fields,
        } => {
            let tys = fields_of(scope, *datatype, *con, types)?;
            let wanted = Instances { tys, types };
            have_types(fields, scope, &*around, &wanted)?;
            datatype_at(scope.alloc, *datatype, types)
        }
        Term::Call { fun, funs, args } => {
            let called = called_by(scope, fun)?;
            arguments_have(scope, funs, called.takes, called.types)?;
            let wanted = Instances {
                tys: called.params,
                types: called.types,
            };
            have_types(args, scope, &*around, &wanted)?;
            given(scope.alloc, &called)
        }
        Term::Match {
            on,
            datatype,
            types,
            arms,
        } => {
            let found = type_in(on.get(), scope, &*around)?;
            let cons = constructors_of(scope, &found, *datatype, types)?;
            let matched = Matched { types, cons };
            arms_type(arms, scope, &*around, &matched)
        }
    }
}

/// A match whose arms are typed: the types of its datatype, and the datatype's constructors.
#[derive(Clone, Copy)]
struct Matched<'a> {
    types: &'a Items<Ty>,
    cons: &'a Items<ConDef>,
}

/// Whether each part has the type at its place, and there are as many of both. It takes memory: the type of one part
/// at a time, and no wanted type is made.
#[cycle(type_in)]
fn have_types(
    parts: &Items<Term>,
    scope: &Scope,
    around: &Around,
    wanted: &Instances<'_>,
) -> Result<(), NotTyped>
    ensures { Finds (parts_have (bound_of around.now) (map (type_found (here scope.now)) parts.now) (tys_of wanted.now)) result }
{
    let terms = parts.as_slice();
    let types = wanted.tys.as_slice();
    if terms.len() != types.len() {
        return Err(NotTyped::IllTyped);
    }
    for index in 0..terms.len() {
        let found = type_in(&terms[index], scope, &*around)?;
        if !is_instance(&found, &types[index], wanted.types) {
            return Err(NotTyped::IllTyped);
        }
    }
    Ok(())
}

/// The one type of the arms, an arm for each constructor. It takes memory.
#[cycle(type_in)]
fn arms_type(
    arms: &Items<Term>,
    scope: &Scope,
    around: &Around,
    matched: &Matched,
) -> Result<Ty, NotTyped>
    ensures { Finds (arms_have (bound_of around.now) matched.now.types.now None matched.now.cons.now (map (type_found (here scope.now)) arms.now)) result }
{
    let bodies = arms.as_slice();
    let cons = matched.cons.as_slice();
    if bodies.len() != cons.len() {
        return Err(NotTyped::IllTyped);
    }
    let mut agreed = None;
    for index in 0..bodies.len() {
        let inner = inside_arm(&cons[index].fields, matched.types, &*around);
        let found = type_in(&bodies[index], scope, &inner)?;
        if !is_agreed(&agreed, &found) {
            return Err(NotTyped::IllTyped);
        }
        agreed = Some(found);
    }
    match agreed {
        Some(ty) => Ok(ty),
        None => Err(NotTyped::IllTyped),
    }
}

/// The type of a live data variable. It takes memory.
fn variable(scope: &Scope, number: u32) -> Result<Ty, NotTyped>
    ensures { Finds (type_of_variable (here scope.now) number) result }
{
    let Some(slot) = at(scope.context.vars.as_slice(), number as usize) else {
        return Err(NotTyped::IllTyped);
    };
    let Some(ty) = slot else {
        return Err(NotTyped::IllTyped);
    };
    Ok(copy_ty(scope.alloc, ty)?)
}

/// The type of a literal. It takes no memory.
fn word_type(_word: u64) -> Ty
    ensures { literal_type _word ≡ Some result }
{
    Ty::Word
}

/// The types of the fields of a constructor, where its datatype at these types is a type. It takes no memory.
#[tactic(auto, unfolding(crate::specs::TypeOf::fields_found, crate::specs::TypeOf::followed, crate::specs::TypeOf::when))]
fn fields_of<'a>(
    scope: &Scope<'a>,
    datatype: u32,
    con: u32,
    types: &Items<Ty>,
) -> Result<&'a Items<Ty>, NotTyped>
    ensures { let wanted = fields_found (here scope.now) datatype con types.now in MatchResult result (λ fields. wanted ≡ Some (tys_instance types.now fields.now)) (EndsWithout wanted) }
{
    if !is_datatype(scope, datatype, types) {
        return Err(NotTyped::IllTyped);
    }
    let Some(data) = at(scope.program.datatypes.as_slice(), datatype as usize) else {
        return Err(NotTyped::IllTyped);
    };
    match at(data.cons.as_slice(), con as usize) {
        Some(constructor) => Ok(&constructor.fields),
        None => Err(NotTyped::IllTyped),
    }
}

/// The type of what is given, with its types put in. It takes memory.
fn given(alloc: Global, called: &Called<'_>) -> Result<Ty, NotTyped>
    ensures { Finds (Some (ty_instance called.now.types.now called.now.result.now)) result }
{
    Ok(instance_of_ty(alloc, called.result, called.types.as_slice())?)
}

/// The datatype at these types. It takes memory.
fn datatype_at(alloc: Global, datatype: u32, types: &Items<Ty>) -> Result<Ty, NotTyped>
    ensures { Finds (Some (kinds.Con datatype types.now)) result }
{
    Ok(Ty::Con {
        datatype,
        args: copy_tys(alloc, types.as_slice())?,
    })
}

/// The constructors of the datatype that a match says it is on, where it is on a term of that type. It takes no memory.
#[tactic(auto, unfolding(crate::specs::TypeOf::constructors_found, crate::specs::TypeOf::followed, crate::specs::TypeOf::when))]
fn constructors_of<'a>(
    scope: &Scope<'a>,
    found: &Ty,
    datatype: u32,
    types: &Items<Ty>,
) -> Result<&'a Items<ConDef>, NotTyped>
    ensures { let wanted = constructors_found (here scope.now) found.now datatype types.now in MatchResult result (λ cons. wanted ≡ Some cons.now) (EndsWithout wanted) }
{
    if !is_con(found, datatype, types) {
        return Err(NotTyped::IllTyped);
    }
    match at(scope.program.datatypes.as_slice(), datatype as usize) {
        Some(data) => Ok(&data.cons),
        None => Err(NotTyped::IllTyped),
    }
}

/// Whether the type is that of the arms before, where there were some. It takes no memory.
#[tactic(auto, unfolding(crate::specs::Outcome::agrees))]
fn is_agreed(agreed: &Option<Ty>, found: &Ty) -> bool
    ensures { result ≡ agrees agreed.now found.now }
{
    match agreed {
        Some(first) => is_same(found, first),
        None => true,
    }
}

/// Whether the type is this datatype at these types. It takes no memory.
fn is_con(found: &Ty, datatype: u32, types: &Items<Ty>) -> bool
    ensures { result ≡ same found.now (kinds.Con datatype types.now) }
{
    match found {
        Ty::Con {
            datatype: number,
            args,
        } => *number == datatype && same_tys(args.as_slice(), types.as_slice()),
        Ty::Word => false,
        Ty::Var(_number) => false,
    }
}

/// The type of a term is found exactly where it has one.
pub fn typings_are_exact()
    ensures { TypesAreExact }
{}

/// Each datatype of a typed program has a constructor.
pub fn typed_have_constructors()
    ensures { TypedHaveConstructors }
{}
