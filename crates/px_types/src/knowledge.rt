//! What is known of a function at no place of the text: of a definition all that the program declares of it.
ghost use Rattle.std.specs.Prelude.{◌≡◌, ◌↔◌, ◌⊎◌, ◌&&◌, not, IsTrue};
ghost use Rattle.std.specs.List.{list_any};
ghost use Rattle.px_props.specs.Sets.{IsSetOf};
ghost use Rattle.px_terms.specs.Prop.{Prop as Property};
ghost use Rattle.px_terms.specs.PropSets.{HasProp, has_prop};
ghost use Rattle.px_terms.specs.Typing.{IsSaid, anywhere};
ghost use Rattle.px_types.specs.Bounds.{here};
ghost use Rattle.px_types.specs.Outcome.{has_wanted, is_property_of};

use crate::scope::Scope;
use px_props::{at_most_properties, equal_properties, has, implied, with};
use px_terms::{Declared, Head, Program, Prop, PropSet};
use sqlite_items::at;

/// The set of no property.
const NONE: PropSet = PropSet { has: [false; 11] };

/// The properties, in the order of their numbers.
const ALL: [Prop; 11] = [
    Prop::Comm,
    Prop::Assoc,
    Prop::Idem,
    Prop::Sel,
    Prop::Refl,
    Prop::Irrefl,
    Prop::Sym,
    Prop::Antisym,
    Prop::Asym,
    Prop::Trans,
    Prop::Conn,
];

/// Whether each property of the wanted set is known of the function. It takes no memory; of a definition it walks once over
/// the program's obligations, and of anything where no property is wanted not at all.
pub(crate) fn knows_all(scope: &Scope, head: Head, wanted: PropSet) -> bool
    ensures { result ≡ has_wanted (here scope.now) head wanted }
{
    includes(NONE, wanted) || includes(implied(said(scope, head)), wanted)
}

/// The properties that are said of the function. It takes no memory.
fn said(scope: &Scope, head: Head) -> PropSet
    ensures { IsSetOf result (IsSaid scope.now.program.now anywhere scope.now.context.now head) }
{
    match head {
        Head::Def(number) => declared_of(scope.program, number),
        Head::Wle => at_most_properties(),
        Head::Weq => equal_properties(),
        Head::FnVar(number) => match at(scope.context.funs.as_slice(), number as usize) {
            Some(fun) => fun.props,
            None => NONE,
        },
    }
}

/// The properties that the program declares of the definition. It takes no memory.
fn declared_of(program: &Program, number: u32) -> PropSet
    ensures { IsSetOf result (λ p. IsTrue (list_any (is_property_of number p) program.now.declared)) }
{
    let mut set = NONE;
    for obligation in program.declared.as_slice() {
        set = with_declared(set, *obligation, number);
    }
    set
}

/// The set, with the property that is declared of the definition here, where one is. It takes no memory.
fn with_declared(set: PropSet, obligation: Declared, number: u32) -> PropSet
    ensures { IsSetOf result (λ p. HasProp set p ⊎ IsTrue (is_property_of number p obligation)) }
{
    match obligation {
        Declared::Property { def, prop } => { if def == number { with(set, prop) } else { set } }
        Declared::Lemma { .. } => set,
    }
}

/// Whether each property of the wanted set is in the other. It takes no memory.
fn includes(set: PropSet, wanted: PropSet) -> bool
    ensures { IsTrue result ↔ ((p : Property) → HasProp wanted p → HasProp set p) }
{
    for prop in ALL {
        if is_missing(set, wanted, prop) {
            return false;
        }
    }
    true
}

/// Whether the property is wanted, and not in the set. It takes no memory.
fn is_missing(set: PropSet, wanted: PropSet, prop: Prop) -> bool
    ensures { result ≡ (has_prop wanted prop && not (has_prop set prop)) }
{
    has(wanted, prop) && !has(set, prop)
}
