//! Cells, and what a list of them shows.
ghost use Rattle.std.specs.Prelude.{◌≡◌, ◌<◌, ◌↔◌, IsTrue, length};
ghost use Rattle.px_machine.specs.Cells.{fields_of, IsValue, AreValues, IsFirst};

/// One node of a value: a word, or a constructor with the number of its fields, whose cells follow.
#[derive(Clone, Copy)]
pub enum Cell {
    Lit(u64),
    Con {
        datatype: u32,
        con: u32,
        fields: u32,
    },
}

/// How many fields the node has; a word has none.
pub(crate) fn fields_of(cell: Cell) -> usize
    ensures { result ≡ fields_of cell }
{
    match cell {
        Cell::Lit(_) => 0,
        Cell::Con { fields, .. } => fields as usize,
    }
}

/// Whether the cells are those of one value in preorder.
pub fn is_value(cells: &[Cell]) -> bool
    ensures { IsTrue result ↔ IsValue cells.now }
{
    let mut values: usize = 0;
    for at in (0..cells.len()).rev() {
        let fields = fields_of(cells[at]);
        if values < fields {
            return false;
        }
        values = values - fields + 1;
    }
    values == 1
}

/// Where the first value that the cells show ends.
pub(crate) fn first_end(cells: &[Cell]) -> usize
    requires values { AreValues cells.now }
    requires some { 0 < length cells.now }
    ensures { IsFirst result cells.now }
{
    let mut at = 0;
    let mut left: usize = 1;
    while left > 0 {
        left = left - 1 + fields_of(cells[at]);
        at += 1;
    }
    at
}

/// Whether the cells are equal.
fn same_cell(one: Cell, other: Cell) -> bool
    ensures { IsTrue result ↔ (one ≡ other) }
{
    match (one, other) {
        (Cell::Lit(one), Cell::Lit(other)) => one == other,
        (
            Cell::Con {
                datatype,
                con,
                fields,
            },
            Cell::Con {
                datatype: other_datatype,
                con: other_con,
                fields: other_fields,
            },
        ) => datatype == other_datatype && con == other_con && fields == other_fields,
        _ => false,
    }
}

/// Whether the lists of cells are equal.
pub(crate) fn same_cells(ones: &[Cell], others: &[Cell]) -> bool
    ensures { IsTrue result ↔ (ones.now ≡ others.now) }
{
    if ones.len() != others.len() {
        return false;
    }
    for at in 0..ones.len() {
        if !same_cell(ones[at], others[at]) {
            return false;
        }
    }
    true
}
