//! Whether types are types of the program.

ghost use Rattle.std.specs.Prelude.{◌≡◌, ◌↔◌, IsTrue, slice_get};
ghost use Rattle.std.specs.Option.{IsSomeAnd};
ghost use Rattle.px_terms.specs.declared.program.DataDef.{DataDef};
ghost use Rattle.px_terms.specs.Typing.{AreTypes, IsType};

use px_terms::{Program, Ty};
use sqlite_items::{Items, at};

/// Whether it is a type over so many type parameters. It takes no memory; its calls nest as deep as the type.
#[cycle(is_type)]
fn is_type(ty: &Ty, program: &Program, tparams: u32) -> bool
    ensures { IsTrue result ↔ IsType program.now tparams ty.now }
{
    match ty {
        Ty::Word => true,
        Ty::Var(number) => *number < tparams,
        Ty::Con { datatype, args } => {
            takes(program, *datatype, args.len()) && are_types(args, program, tparams)
        }
    }
}

/// Whether each is a type over so many type parameters. It takes no memory.
#[cycle(is_type)]
pub(crate) fn are_types(types: &Items<Ty>, program: &Program, tparams: u32) -> bool
    ensures { IsTrue result ↔ AreTypes program.now tparams types.now }
{
    for ty in types.as_slice() {
        if !is_type(ty, program, tparams) {
            return false;
        }
    }
    true
}

/// Whether the datatype is there, and takes so many types. It takes no memory.
fn takes(program: &Program, datatype: u32, given: usize) -> bool
    ensures { IsTrue result ↔ IsSomeAnd (slice_get program.now.datatypes datatype) (λ (D : DataDef). D.tparams ≡ given) }
{
    match at(program.datatypes.as_slice(), datatype as usize) {
        Some(data) => data.tparams as usize == given,
        None => false,
    }
}
