//! The properties that are known of a function behind so many obligations. Nothing here takes memory.

ghost use Rattle.std.specs.Prelude.{◌≡◌, ◌↔◌, ◌&&◌, not, IsTrue};
ghost use Rattle.px_base.specs.declared.prop.Prop.{Prop as Property};
ghost use Rattle.px_base.specs.PropSets.{HasProp, has_prop};
ghost use Rattle.px_terms.specs.declared.sequent.Context.{Context as Variables};
ghost use Rattle.px_terms.specs.Typing.{IsKnown, IsSaid, behind};
ghost use Rattle.px_props.specs.Sets.{IsSetOf};
ghost use Rattle.px_equations.specs.Index.{IsBelow};

use crate::obligations::Obligations;
use px_props::{at_most_properties, equal_properties, has, implied};
use px_terms::{Declared, FnType, Head, Prop, PropSet};
use sqlite_items::at;

/// The set of no property.
const NONE: PropSet = PropSet { has: [false; 11] };

/// The properties.
const EACH: [Prop; 11] = [
    Prop::Comm,
    Prop::Assoc,
    Prop::Idem,
    Prop::Sel,
    Prop::Refl,
    Prop::Irrefl,
    Prop::Sym,
    Prop::Antisym,
    Prop::Asym,
    Prop::Trans,
    Prop::Conn,
];

/// The properties that are declared of the definition below the obligation of this number.
fn declared_of(all: &Obligations<'_>, number: u32, def: u32) -> PropSet
    ensures { IsSetOf result (λ (p : Property). IsBelow all.now.declared number (Declared.Property def p)) }
{
    PropSet {
        has: [
            all.declares(number, def, Prop::Comm),
            all.declares(number, def, Prop::Assoc),
            all.declares(number, def, Prop::Idem),
            all.declares(number, def, Prop::Sel),
            all.declares(number, def, Prop::Refl),
            all.declares(number, def, Prop::Irrefl),
            all.declares(number, def, Prop::Sym),
            all.declares(number, def, Prop::Antisym),
            all.declares(number, def, Prop::Asym),
            all.declares(number, def, Prop::Trans),
            all.declares(number, def, Prop::Conn),
        ],
    }
}

/// The properties that are said of the function, where the function variables in scope have these types.
fn said(all: &Obligations<'_>, number: u32, funs: &[FnType], head: Head) -> PropSet
    ensures { (context : Variables) → context.funs ≡ funs.now → IsSetOf result (IsSaid all.now (behind number) context head) }
{
    match head {
        Head::Def(def) => declared_of(all, number, def),
        Head::Wle => at_most_properties(),
        Head::Weq => equal_properties(),
        Head::FnVar(place) => match at(funs, place as usize) {
            Some(fun) => fun.props,
            None => NONE,
        },
    }
}

/// The properties that are known of the function, where the function variables in scope have these types: what is said of it,
/// and what follows.
pub(crate) fn known(all: &Obligations<'_>, number: u32, funs: &[FnType], head: Head) -> PropSet
    ensures { (context : Variables) → context.funs ≡ funs.now → IsSetOf result (IsKnown all.now (behind number) context head) }
{
    implied(said(all, number, funs, head))
}

/// Whether the property is in the one set and not in the other.
fn is_missing(set: PropSet, wanted: PropSet, prop: Prop) -> bool
    ensures { result ≡ (has_prop wanted prop && not (has_prop set prop)) }
{
    has(wanted, prop) && !has(set, prop)
}

/// Whether each property of the other set is in the one.
pub(crate) fn includes(set: PropSet, wanted: PropSet) -> bool
    ensures { IsTrue result ↔ ((p : Property) → HasProp wanted p → HasProp set p) }
{
    for prop in EACH {
        if is_missing(set, wanted, prop) {
            return false;
        }
    }
    true
}
