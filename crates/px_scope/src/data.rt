//! Datatypes.
ghost use Rattle.std.specs.Prelude.{◌≡◌, ◌<◌, ◌^◌, length};
ghost use Rattle.px_parser.specs.declared.surface.Item.TheVariants as items;
ghost use Rattle.px_scope.specs.Declaring.{with_constructors, after};
ghost use Rattle.px_scope.specs.ItemUses.{constructors_uses, data_uses};
ghost use Rattle.px_scope.specs.Programs.{AreConstructors, IsData};
ghost use Rattle.px_scope.specs.Answers.{Resolves};

use crate::ends::{ScopeEnd, ScopeKind};
use crate::globals::{Constructor, Globals};
use crate::locals::TypeLocals;
use crate::lookups::fault;
use crate::parameters::add_type_parameters;
use crate::types::resolve_types;
use px_base::{RawCon, RawData};
use px_parser::{Item, SCon, SData};
use sqlite_items::Items;
use std::alloc::Global;

/// The written datatype that one is, which is declared then, with its constructors.
pub(crate) fn resolve_data(
    alloc: Global,
    text: &[Item],
    globals: &mut Globals,
    declaration: &SData,
) -> Result<RawData, ScopeEnd>
    requires number { length globals.old.datatypes < 2 ^ 32 }
    requires tparams { length declaration.now.tparams < 2 ^ 32 }
    requires cons { length declaration.now.cons < 2 ^ 32 }
    ensures { Resolves (data_uses text.now globals.old declaration.now) (λ raw. IsData globals.old declaration.now raw × (globals.new ≡ after globals.old (items.Datatype declaration.now))) result }
{
    if globals.has_type(declaration.name.text.as_str()) {
        return Err(fault(ScopeKind::Repeated, declaration.name.at));
    }
    let number = globals.datatypes.len() as u32;
    globals
        .datatypes
        .add(alloc, declaration.name.text.as_str())?;
    let mut types = TypeLocals::new(alloc);
    add_type_parameters(alloc, globals, &mut types, declaration.tparams.as_slice())?;
    types.own = Some(number);
    let cons = resolve_constructors(
        alloc,
        text,
        globals,
        &types,
        number,
        declaration.cons.as_slice(),
    )?;
    Ok(RawData {
        at: declaration.name.at,
        tparams: declaration.tparams.len() as u32,
        cons,
    })
}

/// The written constructors that those of a datatype are, which are declared then.
fn resolve_constructors(
    alloc: Global,
    text: &[Item],
    globals: &mut Globals,
    types: &TypeLocals,
    datatype: u32,
    cons: &[SCon],
) -> Result<Items<RawCon>, ScopeEnd>
    requires { length cons.now < 2 ^ 32 }
    ensures { Resolves (constructors_uses text.now globals.old types.now cons.now) (λ raws. AreConstructors globals.old types.now cons.now raws × (globals.new ≡ with_constructors datatype globals.old cons.now)) result }
{
    let mut raws = Items::new(alloc);
    for (number, con) in cons.iter().enumerate() {
        if !globals.cons.add(alloc, con.name.text.as_str())? {
            return Err(fault(ScopeKind::Repeated, con.name.at));
        }
        globals.constructors.push(Constructor {
            datatype,
            number: number as u32,
        })?;
        let fields = resolve_types(alloc, text, globals, types, con.fields.as_slice())?;
        raws.push(RawCon {
            at: con.name.at,
            fields,
        })?;
    }
    Ok(raws)
}
