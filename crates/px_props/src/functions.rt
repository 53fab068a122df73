//! The functions that properties speak of.

ghost use Rattle.std.specs.Prelude.{◌≡◌, ◌↔◌, ◌++◌, ◌∷◌, [], List, IsTrue, MatchOption, slice_get};
ghost use Rattle.std.specs.Option.{option_map};
ghost use Rattle.px_terms.specs.Head.TheVariants as heads;
ghost use Rattle.px_terms.specs.declared.types.Ty.{Ty as Kind};
ghost use Rattle.px_terms.specs.Clauses.{HasResult};
ghost use Rattle.px_terms.specs.Programs.{bool_type};
ghost use Rattle.px_props.specs.Signatures.{HasNoPair, IsCalled, of_definition, of_variable, subject_of};

use crate::table::{Asked, asked_by};
use px_terms::{FnType, Head, Program, Prop, Ty, same_ty};
use sqlite_items::at;

/// A function as a property speaks of it: what is called, its own type and function variables, the types of its
/// leading parameters, the one type of its last two, and the type of what it gives.
#[derive(Clone, Copy)]
pub(crate) struct Function<'a> {
    pub head: Head,
    pub tparams: u32,
    pub funs: &'a [FnType],
    pub leading: &'a [Ty],
    pub last: &'a Ty,
    pub gives: &'a Ty,
}

/// The definition of this number, where its last two parameters have one type. It takes no memory.
pub(crate) fn definition(program: &Program, number: u32) -> Option<Function<'_>>
    ensures { let signature = option_map of_definition (slice_get program.now.defs number) in MatchOption result (HasNoPair signature) (IsCalled signature (heads.Def number)) }
{
    let def = at(program.defs.as_slice(), number as usize)?;
    let (leading, last) = parts(def.params.as_slice())?;
    Some(Function {
        head: Head::Def(number),
        tparams: def.tparams,
        funs: def.funs.as_slice(),
        leading,
        last,
        gives: &def.result,
    })
}

/// The function variable of this number, where its last two parameters have one type. It takes no memory.
pub(crate) fn variable(funs: &[FnType], number: u32) -> Option<Function<'_>>
    ensures { let signature = option_map of_variable (slice_get funs.now number) in MatchOption result (HasNoPair signature) (IsCalled signature (heads.FnVar number)) }
{
    let signature = at(funs, number as usize)?;
    let (leading, last) = parts(signature.params.as_slice())?;
    Some(Function {
        head: Head::FnVar(number),
        tparams: 0,
        funs: &[],
        leading,
        last,
        gives: &signature.result,
    })
}

/// The leading types, and the one type of the last two.
fn parts(params: &[Ty]) -> Option<(&[Ty], &Ty)>
    ensures { MatchOption result ((leading : List Kind) (last : Kind) → ¬ (params.now ≡ leading ++ last ∷ last ∷ [])) (λ found. params.now ≡ found.0.now ++ found.1.now ∷ found.1.now ∷ []) }
{
    let [leading @ .., first, last] = params else {
        return None;
    };
    if !same_ty(first, last) {
        return None;
    }
    Some((leading, last))
}

/// Whether the type is `Bool`.
fn is_bool(ty: &Ty) -> bool
    ensures { IsTrue result ↔ (ty.now ≡ bool_type) }
{
    match ty {
        Ty::Con { datatype: 0, args } => args.is_empty(),
        _ => false,
    }
}

/// Whether the function gives what the property asks. It takes no memory.
pub(crate) fn gives_asked(function: &Function<'_>, prop: Prop) -> bool
    ensures { IsTrue result ↔ HasResult (subject_of function.now) prop }
{
    match asked_by(prop) {
        Asked::Any => true,
        Asked::Last => same_ty(function.gives, function.last),
        Asked::Truth => is_bool(function.gives),
    }
}
