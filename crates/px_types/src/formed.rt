//! Whether types are types of the program: each datatype is declared, and has as many arguments as it takes.
ghost use Rattle.std.specs.Prelude.{◌≡◌};
ghost use Rattle.px_types.specs.Bounds.{here};
ghost use Rattle.px_types.specs.TypeOf as found;

use crate::scope::Scope;
use px_terms::{Program, Ty};
use sqlite_items::{Items, at};

/// Whether it is a type over so many type parameters. It takes no memory; its calls nest as deep as the type.
#[cycle(is_type)]
fn is_type(ty: &Ty, program: &Program, tparams: u32) -> bool
    ensures { result ≡ found.is_type program.now tparams ty.now }
{
    match ty {
        Ty::Word => true,
        Ty::Var(number) => *number < tparams,
        Ty::Con { datatype, args } => {
            takes(program, *datatype, args.len()) && are_types(args, program, tparams)
        }
    }
}

/// Whether each is a type over so many type parameters. It takes no memory.
#[cycle(is_type)]
pub(crate) fn are_types(types: &Items<Ty>, program: &Program, tparams: u32) -> bool
    ensures { result ≡ found.are_types program.now tparams types.now }
{
    for ty in types.as_slice() {
        if !is_type(ty, program, tparams) {
            return false;
        }
    }
    true
}

/// Whether the datatype is there, and takes so many types. It takes no memory.
#[tactic(auto, unfolding(crate::specs::TypeOf::takes))]
fn takes(program: &Program, datatype: u32, given: usize) -> bool
    ensures { result ≡ found.takes program.now datatype given }
{
    match at(program.datatypes.as_slice(), datatype as usize) {
        Some(data) => data.tparams as usize == given,
        None => false,
    }
}

/// Whether the datatype at these types is a type. It takes no memory.
#[tactic(auto, unfolding(crate::specs::TypeOf::is_datatype))]
pub(crate) fn is_datatype(scope: &Scope, datatype: u32, types: &Items<Ty>) -> bool
    ensures { result ≡ found.is_datatype (here scope.now).program (here scope.now).context.tparams datatype types.now }
{
    takes(scope.program, datatype, types.len())
        && are_types(types, scope.program, scope.context.tparams)
}
