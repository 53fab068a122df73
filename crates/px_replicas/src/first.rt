//! The first value of a replica.
ghost use Rattle.std.specs.Prelude.{◌≡◌, ◌++◌, IfOk, OnOk};
ghost use Rattle.px_terms.specs.declared.term.Term.{out-Term};
ghost use Rattle.px_terms.specs.TypedPrograms.{IsBuiltLayer, AreBuilt};
ghost use Rattle.px_machine.specs.Cells.{preorder, preorders};
ghost use Rattle.px_replicas.specs.Serving.{built_value, built_values};

use px_base::NoMemory;
use px_machine::{Cell, FlatValue};
use px_terms::Term;
use sqlite_items::Items;
use std::alloc::Global;

/// The number of fields as a cell holds it. Cells count fields by 32 bits: a term that needs more has no place in memory.
fn count(fields: usize) -> Result<u32, NoMemory>
    ensures { IfOk result (λ count. count ≡ fields) }
{
    match u32::try_from(fields) {
        Ok(count) => Ok(count),
        Err(_) => Err(NoMemory),
    }
}

/// Adds the cells of a term that is built of constructors and literals alone.
#[cycle(first)]
fn push_cells(cells: &mut Items<Cell>, term: &Term) -> Result<(), NoMemory>
    requires built { IsBuiltLayer (out-Term term.now) }
    ensures { OnOk result (cells.new ≡ cells.old ++ preorder (built_value term.now)) }
{
    match term {
        Term::Lit(word) => {
            cells.push(Cell::Lit(*word))?;
            Ok(())
        }
        Term::Con {
            datatype,
            con,
            fields,
            ..
        } => {
            cells.push(Cell::Con {
                datatype: *datatype,
                con: *con,
                fields: count(fields.len())?,
            })?;
            push_all(cells, fields.as_slice())
        }
        _ => unreachable!(),
    }
}

/// Adds the cells of such terms, one after the other.
#[cycle(first)]
fn push_all(cells: &mut Items<Cell>, terms: &[Term]) -> Result<(), NoMemory>
    requires built { AreBuilt terms.now }
    ensures { OnOk result (cells.new ≡ cells.old ++ preorders (built_values terms.now)) }
{
    for term in terms {
        push_cells(cells, term)?;
    }
    Ok(())
}

/// The value of a term that is built of constructors and literals alone.
pub(crate) fn first_value(alloc: Global, term: &Term) -> Result<FlatValue, NoMemory>
    requires { IsBuiltLayer (out-Term term.now) }
    ensures { IfOk result (λ first. first ≡ built_value term.now) }
{
    let mut cells = Items::new(alloc);
    push_cells(&mut cells, term)?;
    Ok(FlatValue::from_cells(cells))
}
