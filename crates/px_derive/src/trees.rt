//! The lines of rows, and of trees.
ghost use Rattle.std.specs.Prelude.{◌≡◌, ◌++◌, map, OnOk, IfOk, codes};
ghost use Rattle.std.specs.Fmt.{decimal};
ghost use Rattle.px_terms.specs.Spelling.{side_letter, target_word, path_word, kind_words, on_words};
ghost use Rattle.px_derive.specs.Spelling.{in_brackets, term_text, prop_word, sigma_words, note_words, line_of, lines_of, tree_text};

use crate::printing::{
    print_funs, print_head, print_name, print_numbered, print_term, print_terms, print_types,
};
use px_base::{Names, NoMemory, Prop};
use px_terms::{Kind, Ref, Row, Side, Sigma, Target, Term, Tree};
use px_world::Bytes;
use std::alloc::Global;

/// The word of a property.
fn word_of(prop: Prop) -> &'static [u8]
    ensures { result.now ≡ prop_word prop }
{
    match prop {
        Prop::Comm => b"comm",
        Prop::Assoc => b"assoc",
        Prop::Idem => b"idem",
        Prop::Sel => b"sel",
        Prop::Refl => b"refl",
        Prop::Irrefl => b"irrefl",
        Prop::Sym => b"sym",
        Prop::Antisym => b"antisym",
        Prop::Asym => b"asym",
        Prop::Trans => b"trans",
        Prop::Conn => b"conn",
    }
}

/// Adds what a note puts in.
fn print_sigma(out: &mut Bytes, names: &Names, sigma: &Sigma) -> Result<(), NoMemory>
    ensures { OnOk result (out.new ≡ out.old ++ sigma_words names.now sigma.now) }
{
    out.push(b'[')?;
    print_types(out, names, sigma.types.as_slice())?;
    out.extend_from_slice(b"] [")?;
    print_funs(out, names, sigma.funs.as_slice())?;
    out.extend_from_slice(b"] ")?;
    print_bracketed(out, names, sigma.terms.as_slice())
}

/// Adds terms in brackets.
fn print_bracketed(out: &mut Bytes, names: &Names, terms: &[Term]) -> Result<(), NoMemory>
    ensures { OnOk result (out.new ≡ out.old ++ in_brackets (map (term_text names.now) terms.now)) }
{
    out.push(b'[')?;
    print_terms(out, names, terms)?;
    out.push(b']')
}

/// Adds a note's line.
fn print_note(out: &mut Bytes, names: &Names, reference: Ref, sigma: &Sigma) -> Result<(), NoMemory>
    ensures { OnOk result (out.new ≡ out.old ++ note_words names.now reference sigma.now) }
{
    match reference {
        Ref::Property { head, prop } => {
            out.extend_from_slice(b"note ")?;
            print_head(out, names, head)?;
            out.push(b'.')?;
            out.extend_from_slice(word_of(prop))?;
            out.push(b' ')?;
            print_sigma(out, names, sigma)
        }
        Ref::Lemma { lemma } => {
            out.extend_from_slice(b"note ")?;
            print_name(out, names.lemmas.as_slice(), lemma)?;
            out.push(b' ')?;
            print_sigma(out, names, sigma)
        }
        Ref::Hypothesis => {
            out.extend_from_slice(b"hyp ")?;
            print_bracketed(out, names, sigma.terms.as_slice())
        }
    }
}

/// Adds a side's letter.
fn print_side(out: &mut Bytes, side: Side) -> Result<(), NoMemory>
    ensures { OnOk result (out.new ≡ out.old ++ side_letter side) }
{
    match side {
        Side::Left => out.push(b'l'),
        Side::Right => out.push(b'r'),
    }
}

/// Adds an alternative or a fact, with its side.
fn print_target(out: &mut Bytes, target: Target) -> Result<(), NoMemory>
    ensures { OnOk result (out.new ≡ out.old ++ target_word target) }
{
    match target {
        Target::Alternative { number, side } => {
            print_numbered(out, b"a", number)?;
            print_side(out, side)
        }
        Target::Fact { number, side } => {
            print_numbered(out, b"f", number)?;
            print_side(out, side)
        }
    }
}

/// Adds a path: a slash before each child number, or a slash alone.
fn print_path(out: &mut Bytes, path: &[u32]) -> Result<(), NoMemory>
    ensures { OnOk result (out.new ≡ out.old ++ path_word path.now) }
{
    if path.is_empty() {
        return out.push(b'/');
    }
    for child in path {
        print_numbered(out, b"/", *child)?;
    }
    Ok(())
}

/// Adds what a step does.
fn print_kind(out: &mut Bytes, kind: Kind) -> Result<(), NoMemory>
    ensures { OnOk result (out.new ≡ out.old ++ kind_words kind) }
{
    match kind {
        Kind::Unfold => out.extend_from_slice(b"unfold"),
        Kind::Select => out.extend_from_slice(b"select"),
        Kind::Compare => out.extend_from_slice(b"compare"),
        Kind::Fact {
            number,
            left_to_right,
        } => {
            print_numbered(out, b"fact ", number)?;
            let direction = if left_to_right { b" lr" } else { b" rl" };
            out.extend_from_slice(direction)
        }
    }
}

/// Adds the variables of a header.
fn print_on(out: &mut Bytes, on: &[u32]) -> Result<(), NoMemory>
    ensures { OnOk result (out.new ≡ out.old ++ on_words on.now) }
{
    if on.is_empty() {
        return Ok(());
    }
    out.extend_from_slice(b" on")?;
    for variable in on {
        print_numbered(out, b" ", *variable)?;
    }
    Ok(())
}

/// Adds a header's line.
fn print_header(out: &mut Bytes, obligation: u32, on: &[u32]) -> Result<(), NoMemory>
    ensures { OnOk result (out.new ≡ out.old ++ (codes "goal " ++ (decimal obligation ++ on_words on.now))) }
{
    print_numbered(out, b"goal ", obligation)?;
    print_on(out, on)
}

/// Adds a row's line, without a line feed.
fn print_row(out: &mut Bytes, names: &Names, row: &Row) -> Result<(), NoMemory>
    ensures { OnOk result (out.new ≡ out.old ++ line_of names.now row.now) }
{
    match row {
        Row::Header { obligation, on } => print_header(out, *obligation, on.as_slice()),
        Row::Same { alternative } => print_numbered(out, b"same ", *alternative),
        Row::Step { target, path, kind } => {
            out.extend_from_slice(b"step ")?;
            print_target(out, *target)?;
            out.push(b' ')?;
            print_path(out, path.as_slice())?;
            out.push(b' ')?;
            print_kind(out, *kind)
        }
        Row::Note { reference, sigma } => print_note(out, names, *reference, sigma),
        Row::CaseVar { variable } => print_numbered(out, b"case ", *variable),
        Row::SplitTerm { term } => {
            out.extend_from_slice(b"split ")?;
            print_term(out, names, term)
        }
        Row::Clash { fact } => print_numbered(out, b"clash ", *fact),
        Row::Inject { fact } => print_numbered(out, b"inject ", *fact),
    }
}

/// Adds the lines of rows, each with its line feed.
fn print_rows(out: &mut Bytes, names: &Names, rows: &[Row]) -> Result<(), NoMemory>
    ensures { OnOk result (out.new ≡ out.old ++ lines_of names.now rows.now) }
{
    for row in rows {
        print_row(out, names, row)?;
        out.push(b'\n')?;
    }
    Ok(())
}

/// The text of an obligation's tree: its header, and its rows in preorder, each line with its line feed. It is a loop over
/// the rows, however deep the tree is.
pub fn print_tree(
    alloc: Global,
    names: &Names,
    obligation: u32,
    tree: &Tree,
) -> Result<Bytes, NoMemory>
    ensures { IfOk result (λ text. text ≡ tree_text names.now obligation tree.now) }
{
    let mut out = Bytes::new(alloc);
    print_header(&mut out, obligation, tree.on.as_slice())?;
    out.push(b'\n')?;
    print_rows(&mut out, names, tree.rows.as_slice())?;
    Ok(out)
}
