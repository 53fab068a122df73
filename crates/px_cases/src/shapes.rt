//! Datatypes at their types, and their constructors on fresh variables.
ghost use Rattle.std.specs.Prelude.{◌≡◌, ◌+◌, ◌<◌, ◌≤◌, ◌^◌, ◌++◌, ℕ, List, IfOk, OnOk, MatchOption, Some, slice_get, length, map};
ghost use Rattle.px_terms.specs.declared.types.Ty.{Ty as Kind};
ghost use Rattle.px_terms.specs.declared.types.Ty.TheVariants as kinds;
ghost use Rattle.px_terms.specs.declared.term.Term.TheVariants as terms;
ghost use Rattle.px_terms.specs.declared.program.DataDef.{DataDef as Declaration};
ghost use Rattle.px_terms.specs.limits.TheConstants.{VARIABLES};
ghost use Rattle.px_terms.specs.Types.{numbers_from, tys_instance};
ghost use Rattle.px_terms.specs.Typing.{live};
ghost use Rattle.px_cases.specs.Ends.{HasRoom};

use crate::small::are_small_instances;
use px_terms::limits::VARIABLES;
use px_terms::{ConDef, DataDef, NoMemory, Program, Term, Ty, copy_tys, instance_of_ty};
use sqlite_items::{Items, at};
use std::alloc::Global;

/// A datatype by its number, at these types.
#[derive(Clone, Copy)]
pub(crate) struct Data<'a> {
    pub(crate) number: u32,
    pub(crate) args: &'a Items<Ty>,
    pub(crate) declaration: &'a DataDef,
}

/// A constructor of a datatype, at these types.
#[derive(Clone, Copy)]
pub(crate) struct Shape<'a> {
    pub(crate) datatype: u32,
    pub(crate) con: u32,
    pub(crate) args: &'a Items<Ty>,
    pub(crate) constructor: &'a ConDef,
}

/// The datatype that the type is; None exactly where it is none of the program's. It takes no memory.
pub(crate) fn data_of<'a>(program: &'a Program, ty: &'a Ty) -> Option<Data<'a>>
    ensures { MatchOption result ((d : ℕ) (args : List Kind) (D : Declaration) → ty.now ≡ kinds.Con d args → ¬ (slice_get program.now.datatypes d ≡ Some D)) (λ found. (ty.now ≡ kinds.Con found.number found.args.now) × (slice_get program.now.datatypes found.number ≡ Some found.declaration.now)) }
{
    let Ty::Con { datatype, args } = ty else {
        return None;
    };
    let Some(declaration) = at(program.datatypes.as_slice(), *datatype as usize) else {
        return None;
    };
    Some(Data {
        number: *datatype,
        args,
        declaration,
    })
}

/// The constructor of the datatype that stands at this place.
pub(crate) fn shape_at<'a>(family: &Data<'a>, place: usize) -> Shape<'a>
    requires within { place < length family.now.declaration.now.cons }
    requires few { length family.now.declaration.now.cons < 2 ^ 32 }
    ensures datatype { result.datatype ≡ family.now.number }
    ensures con { result.con ≡ place }
    ensures args { result.args.now ≡ family.now.args.now }
    ensures constructor { slice_get family.now.declaration.now.cons place ≡ Some result.constructor.now }
{
    Shape {
        datatype: family.number,
        con: place as u32,
        args: family.args,
        constructor: &family.declaration.cons.as_slice()[place],
    }
}

/// The number of the constructor's fields, where there is room for them as variables from `next` on; None exactly where there
/// is none. It takes no memory.
pub(crate) fn room_for_fields(next: u32, shape: &Shape) -> Option<u32>
    ensures { MatchOption result (¬ HasRoom next shape.now.args.now shape.now.constructor.now.fields) (λ fresh. (fresh ≡ length shape.now.constructor.now.fields) × HasRoom next shape.now.args.now shape.now.constructor.now.fields) }
{
    let fields = shape.constructor.fields.as_slice();
    let Some(fresh) = fresh_count(next, fields.len()) else {
        return None;
    };
    if are_small_instances(fields, shape.args.as_slice()) {
        Some(fresh)
    } else {
        None
    }
}

/// So many variables from `next` on, or None where that is over the limit of variables.
fn fresh_count(next: u32, count: usize) -> Option<u32>
    ensures { MatchOption result (VARIABLES < next + count) (λ fresh. (fresh ≡ count) × (next + count ≤ VARIABLES)) }
{
    let Ok(fresh) = u32::try_from(count) else {
        return None;
    };
    if next <= VARIABLES && fresh <= VARIABLES - next {
        Some(fresh)
    } else {
        None
    }
}

/// The constructor on so many variables, numbered from `next`. It takes memory, and fails only where there is none.
pub(crate) fn on_fresh_variables(
    alloc: Global,
    next: u32,
    count: u32,
    shape: &Shape,
) -> Result<Term, NoMemory>
    requires { next + count < 2 ^ 32 }
    ensures { IfOk result (λ t. t ≡ terms.Con shape.now.datatype shape.now.con shape.now.args.now (map (λ (i : ℕ). terms.Free i) (numbers_from next count))) }
{
    let mut fields = Items::new(alloc);
    for place in 0..count {
        fields.push(Term::Free(next + place))?;
    }
    Ok(Term::Con {
        datatype: shape.datatype,
        con: shape.con,
        types: copy_tys(alloc, shape.args.as_slice())?,
        fields,
    })
}

/// Adds the types of the constructor's fields behind those of the variables. It takes memory.
pub(crate) fn push_fields(
    alloc: Global,
    vars: &mut Items<Option<Ty>>,
    shape: &Shape,
) -> Result<(), NoMemory>
    ensures { OnOk result (vars.new ≡ vars.old ++ live (tys_instance shape.now.args.now shape.now.constructor.now.fields)) }
{
    for field in shape.constructor.fields.as_slice() {
        vars.push(Some(instance_of_ty(alloc, field, shape.args.as_slice())?))?;
    }
    Ok(())
}
