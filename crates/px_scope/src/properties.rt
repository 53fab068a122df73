//! Properties, of which none is claimed twice.
ghost use Rattle.std.specs.Prelude.{◌≡◌, ◌++◌, IfOk, IfErr};
ghost use Rattle.px_scope.specs.Rules.{prop_number, has_prop};
ghost use Rattle.px_scope.specs.Uses.{properties_uses};
ghost use Rattle.px_scope.specs.Declaring.{props_of};
ghost use Rattle.px_scope.specs.Answers.{Resolves};

use crate::ends::{ScopeEnd, ScopeKind};
use crate::lookups::fault;
use px_base::{Prop, RawProp};
use sqlite_items::Items;
use std::alloc::Global;

/// Adds the properties of a list to those that are claimed, each of which is a new one. Its time is linear in the list,
/// since there are eleven properties.
pub(crate) fn claim(claimed: &mut Items<Prop>, props: &[RawProp]) -> Result<(), ScopeEnd>
    ensures resolves { Resolves (properties_uses claimed.old props.now) (λ _. claimed.new ≡ claimed.old ++ props_of props.now) result }
{
    for prop in props {
        if is_claimed(claimed.as_slice(), prop.prop) {
            return Err(fault(ScopeKind::Repeated, prop.at));
        }
        claimed.push(prop.prop)?;
    }
    Ok(())
}

/// Whether the property is one of these.
fn is_claimed(claimed: &[Prop], prop: Prop) -> bool
    ensures { result ≡ has_prop claimed.now prop }
{
    let wanted = number(prop);
    for other in claimed {
        if number(*other) == wanted {
            return true;
        }
    }
    false
}

/// Each property's own number.
fn number(prop: Prop) -> u32
    ensures { result ≡ prop_number prop }
{
    match prop {
        Prop::Comm => 0,
        Prop::Assoc => 1,
        Prop::Idem => 2,
        Prop::Sel => 3,
        Prop::Refl => 4,
        Prop::Irrefl => 5,
        Prop::Sym => 6,
        Prop::Antisym => 7,
        Prop::Asym => 8,
        Prop::Trans => 9,
        Prop::Conn => 10,
    }
}

/// A copy of the properties.
pub(crate) fn copy_props(alloc: Global, props: &[RawProp]) -> Result<Items<RawProp>, ScopeEnd>
    ensures is { IfOk result (λ copy. copy ≡ props.now) }
    ensures memory { IfErr result (λ end. end ≡ ScopeEnd.NoMemory) }
{
    Ok(Items::from_slice(alloc, props)?)
}

/// A copy of the properties.
pub(crate) fn copy_claimed(alloc: Global, claimed: &[Prop]) -> Result<Items<Prop>, ScopeEnd>
    ensures is { IfOk result (λ copy. copy ≡ claimed.now) }
    ensures memory { IfErr result (λ end. end ≡ ScopeEnd.NoMemory) }
{
    Ok(Items::from_slice(alloc, claimed)?)
}
