//! The row of a line.
ghost use Rattle.std.specs.Prelude.{◌≡◌, IfOk, MatchResult, Err};
ghost use Rattle.px_base.specs.Lawful.{IsLawful};
ghost use Rattle.px_derive.specs.Gives.{left, Gives, Answers};
ghost use Rattle.px_derive.specs.Reading.{brackets_at, tys_at, funs_at, terms_at, sigma_at, step_at, header_at, note_at, hypothesis_at, split_at, wide_row_at, row_at, line_row};
ghost use Rattle.px_derive.specs.Spellable.{IsSpellable, IsNoLine};
ghost use Rattle.px_derive.specs.Spelling.{line_of};
ghost use Rattle.px_terms.specs.declared.row.Row.{Row as TheRow};
ghost use Rattle.px_derive.specs.declared.line_end.LineEnd.TheVariants.{NoMemory};

use crate::fields::{read_kind, read_path, read_reference, read_target, read_variables};
use crate::line_end::LineEnd;
use crate::rest::Rest;
use crate::terms::{read_term, read_terms};
use crate::types::{read_funs, read_types};
use px_base::Names;
use px_base::limits::ROW_DEPTH;
use px_terms::{Fun, Ref, Row, Sigma, Term, Ty};
use sqlite_items::Items;
use std::alloc::Global;

/// The types in brackets at the front, and the bytes after them.
#[tactic(auto, unfolding(crate::specs::Reading::brackets_at, crate::specs::Readers::closed_at, crate::specs::Readers::bind, crate::specs::Readers::after, crate::specs::Readers::pure))]
fn bracketed_types<'t>(
    alloc: Global,
    names: &Names,
    text: Rest<'t>,
) -> Result<(Items<Ty>, Rest<'t>), LineEnd>
    ensures { Gives result (brackets_at (tys_at names.now ROW_DEPTH) (left text.entry)) }
{
    let after = text.skip(b"[")?;
    if let Some(rest) = after.past(b"]") {
        return Ok((Items::new(alloc), rest));
    }
    let (types, rest) = read_types(alloc, names, ROW_DEPTH, after)?;
    let rest = rest.skip(b"]")?;
    Ok((types, rest))
}

/// The functions in brackets at the front, and the bytes after them.
#[tactic(auto, unfolding(crate::specs::Reading::brackets_at, crate::specs::Readers::closed_at, crate::specs::Readers::bind, crate::specs::Readers::after, crate::specs::Readers::pure))]
fn bracketed_funs<'t>(
    alloc: Global,
    names: &Names,
    text: Rest<'t>,
) -> Result<(Items<Fun>, Rest<'t>), LineEnd>
    ensures { Gives result (brackets_at (funs_at names.now ROW_DEPTH) (left text.entry)) }
{
    let after = text.skip(b"[")?;
    if let Some(rest) = after.past(b"]") {
        return Ok((Items::new(alloc), rest));
    }
    let (funs, rest) = read_funs(alloc, names, ROW_DEPTH, after)?;
    let rest = rest.skip(b"]")?;
    Ok((funs, rest))
}

/// The terms in brackets at the front, and the bytes after them.
#[tactic(auto, unfolding(crate::specs::Reading::brackets_at, crate::specs::Readers::closed_at, crate::specs::Readers::bind, crate::specs::Readers::after, crate::specs::Readers::pure))]
fn bracketed_terms<'t>(
    alloc: Global,
    names: &Names,
    text: Rest<'t>,
) -> Result<(Items<Term>, Rest<'t>), LineEnd>
    ensures { Gives result (brackets_at (terms_at names.now ROW_DEPTH) (left text.entry)) }
{
    let after = text.skip(b"[")?;
    if let Some(rest) = after.past(b"]") {
        return Ok((Items::new(alloc), rest));
    }
    let (terms, rest) = read_terms(alloc, names, ROW_DEPTH, after)?;
    let rest = rest.skip(b"]")?;
    Ok((terms, rest))
}

/// What a note puts in, at the front, and the bytes after it.
#[tactic(auto, unfolding(crate::specs::Reading::sigma_at, crate::specs::Readers::bind, crate::specs::Readers::pure))]
fn read_sigma<'t>(
    alloc: Global,
    names: &Names,
    text: Rest<'t>,
) -> Result<(Sigma, Rest<'t>), LineEnd>
    ensures { Gives result (sigma_at names.now (left text.entry)) }
{
    let (types, rest) = bracketed_types(alloc, names, text)?;
    let rest = rest.skip(b" ")?;
    let (funs, rest) = bracketed_funs(alloc, names, rest)?;
    let rest = rest.skip(b" ")?;
    let (terms, rest) = bracketed_terms(alloc, names, rest)?;
    let sigma = Sigma { types, funs, terms };
    Ok((sigma, rest))
}

/// The step at the front, after its word, and the bytes after it.
#[tactic(auto, unfolding(crate::specs::Reading::step_at, crate::specs::Readers::bind, crate::specs::Readers::pure))]
fn read_step(alloc: Global, text: Rest<'_>) -> Result<(Row, Rest<'_>), LineEnd>
    ensures { Gives result (step_at (left text.entry)) }
{
    let (target, rest) = read_target(text)?;
    let rest = rest.skip(b" ")?;
    let (path, rest) = read_path(alloc, rest)?;
    let rest = rest.skip(b" ")?;
    let (kind, rest) = read_kind(rest)?;
    Ok((Row::Step { target, path, kind }, rest))
}

/// The header at the front, after its word, and the bytes after it.
#[tactic(auto, unfolding(crate::specs::Reading::header_at, crate::specs::Readers::bind, crate::specs::Readers::after, crate::specs::Readers::pure))]
fn read_header(alloc: Global, text: Rest<'_>) -> Result<(Row, Rest<'_>), LineEnd>
    ensures { Gives result (header_at (left text.entry)) }
{
    let (obligation, rest) = text.number()?;
    let Some(after) = rest.past(b" on ") else {
        let on = Items::new(alloc);
        return Ok((Row::Header { obligation, on }, rest));
    };
    let (on, rest) = read_variables(alloc, after)?;
    Ok((Row::Header { obligation, on }, rest))
}

/// The note at the front, after its word, and the bytes after it.
#[tactic(auto, unfolding(crate::specs::Reading::note_at, crate::specs::Readers::bind, crate::specs::Readers::pure))]
fn read_note<'t>(alloc: Global, names: &Names, text: Rest<'t>) -> Result<(Row, Rest<'t>), LineEnd>
    ensures { Gives result (note_at names.now (left text.entry)) }
{
    let (reference, rest) = read_reference(names, text)?;
    let rest = rest.skip(b" ")?;
    let (sigma, rest) = read_sigma(alloc, names, rest)?;
    Ok((Row::Note { reference, sigma }, rest))
}

/// What the hypothesis puts in, at the front, and the bytes after it.
#[tactic(auto, unfolding(crate::specs::Reading::hypothesis_at, crate::specs::Readers::bind, crate::specs::Readers::pure))]
fn read_hypothesis<'t>(
    alloc: Global,
    names: &Names,
    text: Rest<'t>,
) -> Result<(Row, Rest<'t>), LineEnd>
    ensures { Gives result (hypothesis_at names.now (left text.entry)) }
{
    let (terms, rest) = bracketed_terms(alloc, names, text)?;
    let sigma = Sigma {
        types: Items::new(alloc),
        funs: Items::new(alloc),
        terms,
    };
    let reference = Ref::Hypothesis;
    Ok((Row::Note { reference, sigma }, rest))
}

/// The term whose cases are taken, at the front, and the bytes after it.
#[tactic(auto, unfolding(crate::specs::Reading::split_at, crate::specs::Readers::bind, crate::specs::Readers::pure))]
fn read_split<'t>(alloc: Global, names: &Names, text: Rest<'t>) -> Result<(Row, Rest<'t>), LineEnd>
    ensures { Gives result (split_at names.now (left text.entry)) }
{
    let (term, rest) = read_term(alloc, names, ROW_DEPTH, text)?;
    Ok((Row::SplitTerm { term }, rest))
}

/// The row at the front that holds types or terms, and the bytes after it.
#[tactic(auto, unfolding(crate::specs::Reading::wide_row_at, crate::specs::Readers::after, crate::specs::Readers::nothing))]
fn read_wide_row<'t>(
    alloc: Global,
    names: &Names,
    text: Rest<'t>,
) -> Result<(Row, Rest<'t>), LineEnd>
    ensures { Gives result (wide_row_at names.now (left text.entry)) }
{
    if let Some(after) = text.past(b"note ") {
        return read_note(alloc, names, after);
    }
    if let Some(after) = text.past(b"hyp ") {
        return read_hypothesis(alloc, names, after);
    }
    if let Some(after) = text.past(b"split ") {
        return read_split(alloc, names, after);
    }
    Err(LineEnd::Form)
}

/// The row or the header at the front, and the bytes after it.
#[tactic(auto, unfolding(crate::specs::Reading::row_at, crate::specs::Reading::numbered_at, crate::specs::Readers::after, crate::specs::Readers::bind, crate::specs::Readers::pure))]
fn read_row<'t>(alloc: Global, names: &Names, text: Rest<'t>) -> Result<(Row, Rest<'t>), LineEnd>
    ensures { Gives result (row_at names.now (left text.entry)) }
{
    if let Some(after) = text.past(b"step ") {
        return read_step(alloc, after);
    }
    if let Some(after) = text.past(b"same ") {
        let (alternative, rest) = after.number()?;
        return Ok((Row::Same { alternative }, rest));
    }
    if let Some(after) = text.past(b"case ") {
        let (variable, rest) = after.number()?;
        return Ok((Row::CaseVar { variable }, rest));
    }
    if let Some(after) = text.past(b"inject ") {
        let (fact, rest) = after.number()?;
        return Ok((Row::Inject { fact }, rest));
    }
    if let Some(after) = text.past(b"clash ") {
        let (fact, rest) = after.number()?;
        return Ok((Row::Clash { fact }, rest));
    }
    if let Some(after) = text.past(b"goal ") {
        return read_header(alloc, after);
    }
    read_wide_row(alloc, names, text)
}

/// The row of the whole line.
#[tactic(auto, unfolding(crate::specs::Reading::line_row))]
fn read_whole(alloc: Global, names: &Names, line: &[u8]) -> Result<Row, LineEnd>
    ensures { Answers result (line_row names.now line.now) }
{
    let (row, rest) = read_row(alloc, names, Rest { bytes: line })?;
    if rest.bytes.is_empty() {
        return Ok(row);
    }
    Err(LineEnd::Form)
}

/// The row of a line, which is handed over without its line feed. A line is read in the one spelling of its row alone, and
/// any other line is `Form`: so is one with a number above its limit, a name that no part of its kind has, a term or a type
/// that nests deeper than `ROW_DEPTH`, or anything in front, between or behind that the row's spelling does not have. A
/// constructor, a datatype or a function with a wrong number of arguments is read. Each byte is looked at a few times, and
/// a name is looked for among those of its kind.
pub fn read_line(alloc: Global, names: &Names, line: &[u8]) -> Result<Row, LineEnd>
    // What is read is spelled so.
    ensures spellable { IfOk result (λ row. IsSpellable names.now row) }
    ensures spelled { IfOk result (λ row. line.now ≡ line_of names.now row) }

    // With lawful names the line of a row is read as that row, unless memory runs out, and a line is `Form` only where it is
    // no row's.
    ensures read { IsLawful names.now → (row : TheRow) → IsSpellable names.now row → line.now ≡ line_of names.now row → MatchResult result (λ read. read ≡ row) (λ end. end ≡ NoMemory) }
    ensures form { IsLawful names.now → result ≡ Err LineEnd.Form → IsNoLine names.now line.now }
{
    read_whole(alloc, names, line)
}
