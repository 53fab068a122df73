//! The trees of a text, read and printed again.
ghost use Rattle.std.specs.Prelude.{◌≤◌, length};
ghost use Rattle.px_base.specs.declared.limits.TheConstants.{PROGRAM_BYTES as PROGRAM_LIMIT};

use crate::stop::Stop;
use px_base::{Names, RawProgram};
use px_derive::{Piece, Row, Tree, next_line, print_tree, read_line};
use px_lexer::tokens;
use px_parser::parse;
use px_scope::resolve;
use px_world::{Sink, write_all};
use sqlite_items::Items;
use std::alloc::Global;

/// A tree as far as it was read, with its obligation's number.
#[derive(Drop)]
struct Open {
    obligation: u32,
    tree: Tree,
}

/// The names of a program.
pub(crate) fn names_of(alloc: Global, text: &[u8]) -> Result<Names, Stop>
    requires { length text.now ≤ PROGRAM_LIMIT }
{
    let found = tokens(alloc, text)?;
    let surface = parse(alloc, found.as_slice(), text)?;
    let RawProgram { names, .. } = resolve(alloc, &surface)?;
    Ok(names)
}

/// Prints a tree.
fn print<O: Sink>(alloc: Global, names: &Names, open: &Open, out: &mut O) -> Result<(), Stop> {
    let text = print_tree(alloc, names, open.obligation, &open.tree)?;
    write_all(out, text.as_slice())?;
    Ok(())
}

/// The tree with one more row, or the next one where the row is its header; the one before is printed.
fn with_row<O: Sink>(
    alloc: Global,
    names: &Names,
    open: Option<Open>,
    row: Row,
    out: &mut O,
) -> Result<Open, Stop> {
    if let Row::Header { obligation, on } = row {
        if let Some(before) = &open {
            print(alloc, names, before, out)?;
        }
        let rows = Items::new(alloc);
        let tree = Tree { on, rows };
        return Ok(Open { obligation, tree });
    }
    let Some(Open { obligation, tree }) = open else {
        return Err(Stop::Line);
    };
    let Tree { on, mut rows } = tree;
    rows.push(row)?;
    let tree = Tree { on, rows };
    Ok(Open { obligation, tree })
}

/// Prints the trees of a text again.
pub(crate) fn reprint<O: Sink>(
    alloc: Global,
    names: &Names,
    text: &[u8],
    out: &mut O,
) -> Result<(), Stop> {
    let mut open = None;
    let mut at = 0;
    while let Piece::Line { start, end, next } = next_line(text, at) {
        let row = read_line(alloc, names, &text[start..end])?;
        open = Some(with_row(alloc, names, open, row, out)?);
        at = next;
    }
    if at < text.len() {
        return Err(Stop::Line);
    }
    match open {
        Some(last) => print(alloc, names, &last, out),
        None => Ok(()),
    }
}
