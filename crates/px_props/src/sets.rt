//! Sets of properties, and what they imply.

ghost use Rattle.std.specs.Prelude.{◌≡◌, ◌↔◌, ◌⊎◌, IsTrue, true, map, slice_set};
ghost use Rattle.px_terms.specs.RawProp.{RawProp as Written};
ghost use Rattle.px_terms.specs.PropSets.{HasProp, prop_number, set_of};
ghost use Rattle.px_terms.specs.Implied.{HasAtMost, HasEqual};
ghost use Rattle.px_props.specs.Sets.{IsSetOf, IsClosure};

use px_terms::{Prop, PropSet, RawProp};

/// The set of no property.
const NONE: PropSet = PropSet { has: [false; 11] };

/// The property's place in a set.
fn number_of(prop: Prop) -> usize
    ensures { result ≡ prop_number prop }
{
    match prop {
        Prop::Comm => 0,
        Prop::Assoc => 1,
        Prop::Idem => 2,
        Prop::Sel => 3,
        Prop::Refl => 4,
        Prop::Irrefl => 5,
        Prop::Sym => 6,
        Prop::Antisym => 7,
        Prop::Asym => 8,
        Prop::Trans => 9,
        Prop::Conn => 10,
    }
}

/// Whether the property is in the set. It takes no memory.
pub fn has(set: PropSet, prop: Prop) -> bool
    ensures { IsTrue result ↔ HasProp set prop }
{
    set.has[number_of(prop)]
}

/// The set with this property. It takes no memory.
pub fn with(set: PropSet, prop: Prop) -> PropSet
    ensures is { result.has ≡ slice_set set.has (prop_number prop) true }
    ensures has { IsSetOf result (λ p. HasProp set p ⊎ (p ≡ prop)) }
{
    let mut known = set;
    known.has[number_of(prop)] = true;
    known
}

/// The set of the properties that are written. It takes no memory.
pub fn set_of_written(props: &[RawProp]) -> PropSet
    ensures { result ≡ set_of (map (λ (written : Written). written.prop) props.now) }
{
    let mut set = NONE;
    for written in props {
        set = with(set, written.prop);
    }
    set
}

/// The set with what it implies: the least set that has it, and that has `idem` with `sel`, `refl` with `conn`, `irrefl`
/// and `antisym` with `asym`, and `asym` with `irrefl` and `trans`. It takes no memory.
pub fn implied(set: PropSet) -> PropSet
    ensures { IsClosure set result }
{
    let asym = has_asym(set);
    let idem = with_if(set, has(set, Prop::Sel), Prop::Idem);
    let refl = with_if(idem, has(set, Prop::Conn), Prop::Refl);
    let irrefl = with_if(refl, asym, Prop::Irrefl);
    let antisym = with_if(irrefl, asym, Prop::Antisym);
    with_if(antisym, asym, Prop::Asym)
}

/// Whether `asym` is in the set, or follows from it.
fn has_asym(set: PropSet) -> bool
    ensures { IsTrue result ↔ (HasProp set Prop.Asym ⊎ (HasProp set Prop.Irrefl × HasProp set Prop.Trans)) }
{
    has(set, Prop::Asym) || has(set, Prop::Irrefl) && has(set, Prop::Trans)
}

/// The set, with this property where it follows.
fn with_if(set: PropSet, follows: bool, prop: Prop) -> PropSet
    ensures { IsSetOf result (λ p. HasProp set p ⊎ ((p ≡ prop) × IsTrue follows)) }
{
    if follows { with(set, prop) } else { set }
}

/// The properties of `wle`, which says whether one word is at most another. It takes no memory.
pub fn at_most_properties() -> PropSet
    ensures { IsSetOf result HasAtMost }
{
    let refl = with(NONE, Prop::Refl);
    let antisym = with(refl, Prop::Antisym);
    let trans = with(antisym, Prop::Trans);
    with(trans, Prop::Conn)
}

/// The properties of `weq`, which says whether two words are equal. It takes no memory.
pub fn equal_properties() -> PropSet
    ensures { IsSetOf result HasEqual }
{
    let refl = with(NONE, Prop::Refl);
    let sym = with(refl, Prop::Sym);
    let antisym = with(sym, Prop::Antisym);
    with(antisym, Prop::Trans)
}
