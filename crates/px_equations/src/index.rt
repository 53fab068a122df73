//! The index of the obligations: where each property of a definition, and each lemma, is declared first.

ghost use Rattle.std.specs.Prelude.{◌≡◌, ◌↔◌, ◌<◌, ◌⊎◌, ◌^◌, ℕ, length, get_or, slice_get, Some, IfOk, OnOk};
ghost use Rattle.px_base.specs.PropSets.{prop_number};
ghost use Rattle.px_terms.specs.declared.program.Declared.{Declared as AnyDeclared};
ghost use Rattle.px_equations.specs.Index.{IsIndex, first_in, number_at, place_of};

use px_terms::{Declared, NoMemory, Prop};
use sqlite_items::{Items, at};
use std::alloc::Global;

/// The number that stands where nothing is declared: no obligation has it.
const NO_NUMBER: u32 = u32::MAX;

/// The number of the first obligation that declares each property of a definition, eleven a definition, and each lemma.
#[derive(Drop)]
pub(crate) struct Index {
    properties: Items<u32>,
    lemmas: Items<u32>,
}

/// The index of these obligations. It takes memory.
pub(crate) fn index_of(alloc: Global, declared: &[Declared]) -> Result<Index, NoMemory>
    requires { length declared.now < 2 ^ 32 }
    ensures { IfOk result (IsIndex declared.now) }
{
    let mut index = Index {
        properties: Items::new(alloc),
        lemmas: Items::new(alloc),
    };
    for number in 0..declared.len() {
        enter(&mut index, declared[number], number as u32)?;
    }
    Ok(index)
}

/// Enters an obligation. Where memory runs out, the index says the same as before.
fn enter(index: &mut Index, declared: Declared, number: u32) -> Result<(), NoMemory>
    ensures { OnOk result ((d : AnyDeclared) (n : ℕ) → n < 2 ^ 32 → (first_in index.new d < n) ↔ ((first_in index.old d < n) ⊎ ((d ≡ declared) × (number < n)))) }
{
    match declared {
        Declared::Property { def, prop } => {
            lower(&mut index.properties, place(def, prop), number)
        }
        Declared::Lemma { lemma } => lower(&mut index.lemmas, lemma as usize, number),
    }
}

/// The place of a property of a definition: the properties of one stand side by side. It takes no memory.
fn place(def: u32, prop: Prop) -> usize
    ensures { result ≡ place_of def prop }
{
    def as usize * 11 + number_of(prop)
}

/// The property's own number. It takes no memory.
fn number_of(prop: Prop) -> usize
    ensures is { result ≡ prop_number prop }
    ensures small { result < 11 }
{
    match prop {
        Prop::Comm => 0,
        Prop::Assoc => 1,
        Prop::Idem => 2,
        Prop::Sel => 3,
        Prop::Refl => 4,
        Prop::Irrefl => 5,
        Prop::Sym => 6,
        Prop::Antisym => 7,
        Prop::Asym => 8,
        Prop::Trans => 9,
        Prop::Conn => 10,
    }
}

/// Puts the number at the place, where a greater one stands there. Without memory the list says the same as before.
fn lower(numbers: &mut Items<u32>, place: usize, number: u32) -> Result<(), NoMemory>
    ensures { OnOk result ((at n : ℕ) → n < 2 ^ 32 → (number_at numbers.new at < n) ↔ ((number_at numbers.old at < n) ⊎ ((at ≡ place) × (number < n)))) }
{
    make_room(numbers, place)?;
    if number < numbers.as_slice()[place] {
        numbers.set(place, number);
    }
    Ok(())
}

/// Makes the list long enough to have the place: it says the same as before.
fn make_room(numbers: &mut Items<u32>, place: usize) -> Result<(), NoMemory>
    ensures same { (at : ℕ) → number_at numbers.new at ≡ number_at numbers.old at }
    ensures room { OnOk result (place < length numbers.new) }
{
    'room: while numbers.len() <= place {
        numbers.push(NO_NUMBER)?;
    }
    Ok(())
}

/// The number at the place. It takes no memory.
fn number_in(numbers: &Items<u32>, place: usize) -> u32
    ensures { result ≡ number_at numbers.now place }
{
    match at(numbers.as_slice(), place) {
        Some(number) => *number,
        None => NO_NUMBER,
    }
}

/// The number of the first obligation that declares the property of the definition, or one that no obligation has. It takes no
/// memory.
pub(crate) fn first_property(index: &Index, def: u32, prop: Prop) -> u32
    ensures { result ≡ first_in index.now (Declared.Property def prop) }
{
    number_in(&index.properties, place(def, prop))
}

/// The number of the first obligation that declares the lemma, or one that no obligation has. It takes no memory.
pub(crate) fn first_lemma(index: &Index, lemma: u32) -> u32
    ensures { result ≡ first_in index.now (Declared.Lemma lemma) }
{
    number_in(&index.lemmas, lemma as usize)
}
