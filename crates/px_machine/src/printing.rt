//! How a value prints.
ghost use Rattle.std.specs.Prelude.{◌≡◌, ◌++◌, OnOk, IfOk, reverse};
ghost use Rattle.std.specs.Fmt.{decimal};
ghost use Rattle.px_machine.specs.ValueText.{constructor_name, value_text};
ghost use Rattle.px_machine.specs.PrintLevels.{Closes, Prints};

use crate::cells::Cell;
use crate::flat_value::FlatValue;
use itoa::Buffer;
use px_base::{Names, NoMemory};
use px_world::Bytes;
use sqlite_items::{Items, at};
use std::alloc::Global;

impl FlatValue {
    /// The text of this value: a number without leading zeros, or a constructor's name with its fields in parentheses, joined by
    /// a comma and a space. A constructor without fields has no parentheses, and one without a name in `names` prints none.
    pub fn print(&self, alloc: Global, names: &Names) -> Result<Bytes, NoMemory>
        ensures { IfOk result (λ text. text ≡ value_text names.now self.now) }
    {
        let mut text = Bytes::new(alloc);
        let mut levels = Items::new(alloc);
        for cell in self.cells() {
            print_cell(&mut text, &mut levels, names, *cell)?;
        }
        Ok(text)
    }
}

/// Adds a node, and what closes or parts the values behind it.
fn print_cell(
    text: &mut Bytes,
    levels: &mut Items<u32>,
    names: &Names,
    cell: Cell,
) -> Result<(), NoMemory>
    ensures { OnOk result (Prints names.now cell text.old (reverse levels.old) text.new (reverse levels.new)) }
{
    match cell {
        Cell::Lit(word) => {
            print_word(text, word)?;
            close(text, levels)
        }
        Cell::Con {
            datatype,
            con,
            fields,
        } => {
            print_constructor(text, names, datatype, con)?;
            if fields == 0 {
                close(text, levels)
            } else {
                text.push(b'(')?;
                levels.push(fields - 1)?;
                Ok(())
            }
        }
    }
}

/// Adds a number in decimal.
fn print_word(text: &mut Bytes, word: u64) -> Result<(), NoMemory>
    ensures { OnOk result (text.new ≡ text.old ++ decimal word) }
{
    let mut digits = Buffer::new();
    text.extend_from_slice(digits.format(word).as_bytes())
}

/// Adds the name of a constructor.
fn print_constructor(
    text: &mut Bytes,
    names: &Names,
    datatype: u32,
    con: u32,
) -> Result<(), NoMemory>
    ensures { OnOk result (text.new ≡ text.old ++ constructor_name names.now datatype con) }
{
    let Some(own) = at(names.cons.as_slice(), datatype as usize) else {
        return Ok(());
    };
    let Some(name) = at(own.as_slice(), con as usize) else {
        return Ok(());
    };
    text.extend_from_slice(name.as_str().as_bytes())
}

/// Adds what stands behind a value: a comma and a space where its constructor has more fields, else a parenthesis, and so on
/// outward. A level is the number of fields behind the present one.
fn close(text: &mut Bytes, levels: &mut Items<u32>) -> Result<(), NoMemory>
    ensures { OnOk result (Closes text.old (reverse levels.old) text.new (reverse levels.new)) }
{
    while let Some(more) = levels.pop() {
        if more > 0 {
            levels.push(more - 1)?;
            return text.extend_from_slice(b", ");
        }
        text.push(b')')?;
    }
    Ok(())
}
