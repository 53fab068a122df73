//! Notes of which properties are declared of each definition so far, by the definition's number.
ghost use Rattle.std.specs.Prelude.{◌≡◌, ◌<◌, ◌++◌, ◌||◌, ◌&&◌, ◌==◌, ℕ, length, map, OnOk, OnErr};
ghost use Rattle.std.specs.List.{list_any};
ghost use Rattle.px_base.specs.PropSets.{has_prop};
ghost use Rattle.px_base.specs.declared.prop.Prop.{Prop as AnyProp};
ghost use Rattle.px_types.specs.Checkings.{AreNotes, is_noted};
ghost use Rattle.px_types.specs.Declarations.{obligations_of, with_obligations};
ghost use Rattle.px_types.specs.Outcome.{is_among};
ghost use Rattle.px_types.specs.Written.{props_of};

use crate::lists::keep_first;
use px_props::with;
use px_terms::{Declared, NoMemory, Program, PropSet, RawProp};
use sqlite_items::Items;

/// The set of no property.
const NONE: PropSet = PropSet { has: [false; 11] };

/// Puts the properties of a definition behind the obligations of the program, and notes them. Without memory the program is
/// unchanged.
pub(crate) fn declare(
    program: &mut Program,
    notes: &mut Items<PropSet>,
    def: u32,
    props: &[RawProp],
) -> Result<(), NoMemory>
    requires { AreNotes program.old.declared notes.old }
    ensures notes { AreNotes program.new.declared notes.new }
    ensures ok { OnOk result (program.new ≡ with_obligations program.old (obligations_of def props.now)) }
    ensures err { OnErr result (program.new ≡ program.old) }
{
    make_room(notes, def)?;
    push_properties(&mut program.declared, def, props)?;
    note(notes, def, props);
    Ok(())
}

/// Puts the properties of a definition behind the obligations. Without memory these are unchanged.
fn push_properties(
    declared: &mut Items<Declared>,
    def: u32,
    props: &[RawProp],
) -> Result<(), NoMemory>
    ensures ok { OnOk result (declared.new ≡ declared.old ++ obligations_of def props.now) }
    ensures err { OnErr result (declared.new ≡ declared.old) }
{
    let before = declared.len();
    for written in props {
        let property = Declared::Property {
            def,
            prop: written.prop,
        };
        if let Err(_end) = declared.push(property) {
            keep_first(declared, before);
            return Err(NoMemory);
        }
    }
    Ok(())
}

/// Gives the definition a set, and each one before it: nothing is noted of those that had none.
fn make_room(notes: &mut Items<PropSet>, def: u32) -> Result<(), NoMemory>
    ensures same { (n : ℕ) (p : AnyProp) → is_noted notes.new n p ≡ is_noted notes.old n p }
    ensures room { OnOk result (def < length notes.new) }
{
    'room: while notes.len() <= def as usize {
        notes.push(NONE)?;
    }
    Ok(())
}

/// Notes the properties of a definition that has a set. It takes no memory.
fn note(notes: &mut Items<PropSet>, def: u32, props: &[RawProp])
    requires { def < length notes.old }
    ensures { (n : ℕ) (p : AnyProp) → is_noted notes.new n p ≡ (is_noted notes.old n p || (def == n && is_among (props_of props.now) p)) }
{
    let mut set = notes.as_slice()[def as usize];
    for written in props {
        set = with(set, written.prop);
    }
    notes.set(def as usize, set);
}
