//! Datatypes.
ghost use Rattle.std.specs.Prelude.{◌≡◌, OnErr};
ghost use Rattle.px_types.specs.Answers.{Answers};
ghost use Rattle.px_types.specs.Checkings.{Takes};
ghost use Rattle.px_types.specs.Declarations.{with_datatype, without_constructors};
ghost use Rattle.px_types.specs.NextOutcome.{checked, constructor_found, datatype_found};
ghost use Rattle.px_types.specs.Outcomes.{each};

use crate::ends::TypeEnd;
use crate::lists::take_last;
use crate::types::type_tys;
use px_terms::{ConDef, DataDef, Program, RawCon, RawData};
use sqlite_items::Items;
use std::alloc::Global;

/// Nothing, where the fields of the next datatype are right; else their first fault. The program is as before. It takes
/// memory.
pub(crate) fn check_datatype(
    alloc: Global,
    program: &mut Program,
    raw: &RawData,
) -> Result<(), TypeEnd>
    ensures same { program.new ≡ program.old }
    ensures answers { Answers (checked (datatype_found program.old raw.now)) result }
{
    type_own(alloc, program, raw)?;
    Ok(())
}

/// Puts the next datatype behind those of the program, or answers its first fault; the program is then as before. It takes
/// memory.
pub(crate) fn take_datatype(
    alloc: Global,
    program: &mut Program,
    raw: &RawData,
) -> Result<(), TypeEnd>
    ensures same { OnErr result (program.new ≡ program.old) }
    ensures declared { program.new.declared ≡ program.old.declared }
    ensures answers { Takes (datatype_found program.old raw.now) program.new result }
{
    let cons = type_own(alloc, program, raw)?;
    program.datatypes.push(DataDef {
        tparams: raw.tparams,
        cons,
    })?;
    Ok(())
}

/// The constructors of the next datatype, which may name it, or their first fault. The datatype stands in the program
/// meanwhile, without constructors. It takes memory.
fn type_own(alloc: Global, program: &mut Program, raw: &RawData) -> Result<Items<ConDef>, TypeEnd>
    ensures same { program.new ≡ program.old }
    ensures answers { Answers (each (constructor_found (with_datatype program.old (without_constructors raw.now)) raw.now.tparams) raw.now.cons) result }
{
    program.datatypes.push(DataDef {
        tparams: raw.tparams,
        cons: Items::new(alloc),
    })?;
    let cons = type_cons(alloc, program, raw);
    take_last(&mut program.datatypes);
    cons
}

/// The constructors of a datatype, or their first fault. It takes memory.
fn type_cons(alloc: Global, program: &Program, raw: &RawData) -> Result<Items<ConDef>, TypeEnd>
    ensures { Answers (each (constructor_found program.now raw.now.tparams) raw.now.cons) result }
{
    let mut cons = Items::new(alloc);
    for con in raw.cons.as_slice() {
        cons.push(type_con(alloc, program, raw.tparams, con)?)?;
    }
    Ok(cons)
}

/// A constructor from a written one, or its first fault. It takes memory.
#[tactic(auto, unfolding(crate::specs::NextOutcome::constructor_found, crate::specs::Outcomes::onward))]
fn type_con(alloc: Global, program: &Program, tparams: u32, raw: &RawCon) -> Result<ConDef, TypeEnd>
    ensures { Answers (constructor_found program.now tparams raw.now) result }
{
    Ok(ConDef {
        fields: type_tys(alloc, program, tparams, &raw.fields)?,
    })
}
