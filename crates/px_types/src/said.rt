//! The properties that are known of a function at a place. Nothing here takes memory.
ghost use Rattle.std.specs.Prelude.{◌≡◌, ◌&&◌, ◌||◌, not};
ghost use Rattle.std.specs.List.{list_all};
ghost use Rattle.px_base.specs.declared.prop.Prop.{Prop as Property};
ghost use Rattle.px_base.specs.PropSets.{all_props, has_prop};
ghost use Rattle.px_types.specs.Envs.{env_of};
ghost use Rattle.px_types.specs.Outcome.{has_wanted, is_said};

use crate::env::Env;
use px_props::{at_most_properties, equal_properties, has, implied};
use px_terms::{Head, Prop, PropSet};
use sqlite_items::at;

/// The set of no property.
const NONE: PropSet = PropSet { has: [false; 11] };

/// The properties.
const EACH: [Prop; 11] = [
    Prop::Comm,
    Prop::Assoc,
    Prop::Idem,
    Prop::Sel,
    Prop::Refl,
    Prop::Irrefl,
    Prop::Sym,
    Prop::Antisym,
    Prop::Asym,
    Prop::Trans,
    Prop::Conn,
];

/// The properties that are said of the function at the place.
fn said(env: &Env<'_>, head: Head) -> PropSet
    ensures { (p : Property) → has_prop result p ≡ is_said (env_of env.now) head p }
{
    match head {
        Head::Def(number) => match at(env.known.as_slice(), number as usize) {
            Some(set) => *set,
            None => NONE,
        },
        Head::Wle => at_most_properties(),
        Head::Weq => equal_properties(),
        Head::FnVar(number) => match at(env.funs.as_slice(), number as usize) {
            Some(fun) => fun.props,
            None => NONE,
        },
    }
}

/// Whether the property is in the one set and not in the other.
fn lacks(wanted: PropSet, known: PropSet, prop: Prop) -> bool
    ensures { result ≡ (has_prop wanted prop && not (has_prop known prop)) }
{
    has(wanted, prop) && !has(known, prop)
}

/// Whether each property of the one set is in the other.
fn is_within(wanted: PropSet, known: PropSet) -> bool
    ensures { result ≡ list_all (λ (p : Property). not (has_prop wanted p) || has_prop known p) all_props }
{
    for prop in EACH {
        if lacks(wanted, known, prop) {
            return false;
        }
    }
    true
}

/// Whether each property of the set is known of the function at the place.
pub(crate) fn knows_all(env: &Env<'_>, head: Head, wanted: PropSet) -> bool
    ensures { result ≡ has_wanted (env_of env.now) head wanted }
{
    is_within(wanted, implied(said(env, head)))
}
