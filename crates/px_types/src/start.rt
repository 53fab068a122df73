//! The program of no declarations.
ghost use Rattle.std.specs.Prelude.{◌≡◌, IfOk};
ghost use Rattle.px_terms.specs.Programs.{bool_data};
ghost use Rattle.px_types.specs.Declarations.{no_names, start};

use px_terms::{ConDef, DataDef, Names, NoMemory, Program};
use sqlite_items::Items;
use std::alloc::Global;

/// The program of no declarations: `Bool` alone, and no names. It takes memory, and fails only where there is none.
pub(crate) fn start_program(alloc: Global) -> Result<Program, NoMemory>
    ensures { IfOk result (λ program. program ≡ start) }
{
    let mut datatypes = Items::new(alloc);
    datatypes.push(truth(alloc)?)?;
    Ok(Program {
        datatypes,
        defs: Items::new(alloc),
        lemmas: Items::new(alloc),
        declared: Items::new(alloc),
        replicas: Items::new(alloc),
        names: unnamed(alloc),
    })
}

/// The datatype `Bool`.
fn truth(alloc: Global) -> Result<DataDef, NoMemory>
    ensures { IfOk result (λ datatype. datatype ≡ bool_data) }
{
    let mut cons = Items::new(alloc);
    cons.push(ConDef {
        fields: Items::new(alloc),
    })?;
    cons.push(ConDef {
        fields: Items::new(alloc),
    })?;
    Ok(DataDef { tparams: 0, cons })
}

/// No names. It takes no memory.
fn unnamed(alloc: Global) -> Names
    ensures { result ≡ no_names }
{
    Names {
        datatypes: Items::new(alloc),
        cons: Items::new(alloc),
        defs: Items::new(alloc),
        lemmas: Items::new(alloc),
        replicas: Items::new(alloc),
    }
}
