//! What else stands in a row: sides, targets, paths, kinds of steps, properties and references, and lists of numbers.
ghost use Rattle.px_derive.specs.Gives.{left, Gives};
ghost use Rattle.px_derive.specs.Reading.{side_at, target_at, path_at, numbers_at, kind_at, direction_at, prop_at, relation_prop_at, property_at, reference_at};

use crate::line_end::LineEnd;
use crate::lookups::{find_head, find_name};
use crate::rest::Rest;
use px_base::{Head, Names, Prop};
use px_terms::{Kind, Path, Ref, Side, Target};
use sqlite_items::Items;
use std::alloc::Global;

/// The side at the front, and the bytes after it.
#[tactic(auto, unfolding(crate::specs::Reading::side_at, crate::specs::Readers::after, crate::specs::Readers::pure, crate::specs::Readers::nothing))]
fn read_side(text: Rest<'_>) -> Result<(Side, Rest<'_>), LineEnd>
    ensures { Gives result (side_at (left text.entry)) }
{
    if let Some(rest) = text.past(b"l") {
        return Ok((Side::Left, rest));
    }
    if let Some(rest) = text.past(b"r") {
        return Ok((Side::Right, rest));
    }
    Err(LineEnd::Form)
}

/// The alternative or the fact at the front, with its side, and the bytes after it.
#[tactic(auto, unfolding(crate::specs::Reading::target_at, crate::specs::Readers::after, crate::specs::Readers::bind, crate::specs::Readers::pure, crate::specs::Readers::nothing))]
pub(crate) fn read_target(text: Rest<'_>) -> Result<(Target, Rest<'_>), LineEnd>
    ensures { Gives result (target_at (left text.entry)) }
{
    if let Some(after) = text.past(b"a") {
        let (number, rest) = after.number()?;
        let (side, rest) = read_side(rest)?;
        return Ok((Target::Alternative { number, side }, rest));
    }
    if let Some(after) = text.past(b"f") {
        let (number, rest) = after.number()?;
        let (side, rest) = read_side(rest)?;
        return Ok((Target::Fact { number, side }, rest));
    }
    Err(LineEnd::Form)
}

/// The child numbers at the front, with slashes between, and the bytes after them.
fn read_children(alloc: Global, text: Rest<'_>) -> Result<(Path, Rest<'_>), LineEnd>
    ensures { Gives result (numbers_at 47 (left text.entry)) }
{
    let mut path = Path::new(alloc);
    let (first, mut rest) = text.number()?;
    path.push(first)?;
    while let Some(after) = rest.past(b"/") {
        let (next, after) = after.number()?;
        path.push(next)?;
        rest = after;
    }
    Ok((path, rest))
}

/// The path at the front, and the bytes after it. The whole term is a slash alone.
#[tactic(auto, unfolding(crate::specs::Reading::path_at, crate::specs::Readers::choice, crate::specs::Readers::bind, crate::specs::Readers::pure))]
pub(crate) fn read_path(alloc: Global, text: Rest<'_>) -> Result<(Path, Rest<'_>), LineEnd>
    ensures { Gives result (path_at (left text.entry)) }
{
    let rest = text.skip(b"/")?;
    if rest.begins_digit() {
        return read_children(alloc, rest);
    }
    Ok((Path::new(alloc), rest))
}

/// The direction at the front in which the fact of this number rewrites, and the bytes after it.
#[tactic(auto, unfolding(crate::specs::Reading::direction_at, crate::specs::Readers::after, crate::specs::Readers::pure, crate::specs::Readers::nothing))]
fn read_direction(number: u32, text: Rest<'_>) -> Result<(Kind, Rest<'_>), LineEnd>
    ensures { Gives result (direction_at number (left text.entry)) }
{
    if let Some(rest) = text.past(b" lr") {
        let left_to_right = true;
        return Ok((
            Kind::Fact {
                number,
                left_to_right,
            },
            rest,
        ));
    }
    if let Some(rest) = text.past(b" rl") {
        let left_to_right = false;
        return Ok((
            Kind::Fact {
                number,
                left_to_right,
            },
            rest,
        ));
    }
    Err(LineEnd::Form)
}

/// What a step does that is at the front, and the bytes after it.
#[tactic(auto, unfolding(crate::specs::Reading::kind_at, crate::specs::Readers::after, crate::specs::Readers::bind, crate::specs::Readers::pure, crate::specs::Readers::nothing))]
pub(crate) fn read_kind(text: Rest<'_>) -> Result<(Kind, Rest<'_>), LineEnd>
    ensures { Gives result (kind_at (left text.entry)) }
{
    if let Some(rest) = text.past(b"unfold") {
        return Ok((Kind::Unfold, rest));
    }
    if let Some(rest) = text.past(b"select") {
        return Ok((Kind::Select, rest));
    }
    if let Some(rest) = text.past(b"compare") {
        return Ok((Kind::Compare, rest));
    }
    if let Some(after) = text.past(b"fact ") {
        let (number, rest) = after.number()?;
        return read_direction(number, rest);
    }
    Err(LineEnd::Form)
}

/// The property at the front, and the bytes after it.
#[tactic(auto, unfolding(crate::specs::Reading::prop_at, crate::specs::Readers::after, crate::specs::Readers::pure, crate::specs::Readers::nothing))]
fn read_prop(text: Rest<'_>) -> Result<(Prop, Rest<'_>), LineEnd>
    ensures { Gives result (prop_at (left text.entry)) }
{
    if let Some(rest) = text.past(b"comm") {
        return Ok((Prop::Comm, rest));
    }
    if let Some(rest) = text.past(b"assoc") {
        return Ok((Prop::Assoc, rest));
    }
    if let Some(rest) = text.past(b"idem") {
        return Ok((Prop::Idem, rest));
    }
    if let Some(rest) = text.past(b"sel") {
        return Ok((Prop::Sel, rest));
    }
    if let Some(rest) = text.past(b"refl") {
        return Ok((Prop::Refl, rest));
    }
    read_relation_prop(text)
}

/// The property of a relation at the front, `refl` apart, and the bytes after it.
#[tactic(auto, unfolding(crate::specs::Reading::relation_prop_at, crate::specs::Readers::after, crate::specs::Readers::pure, crate::specs::Readers::nothing))]
fn read_relation_prop(text: Rest<'_>) -> Result<(Prop, Rest<'_>), LineEnd>
    ensures { Gives result (relation_prop_at (left text.entry)) }
{
    if let Some(rest) = text.past(b"irrefl") {
        return Ok((Prop::Irrefl, rest));
    }
    if let Some(rest) = text.past(b"sym") {
        return Ok((Prop::Sym, rest));
    }
    if let Some(rest) = text.past(b"antisym") {
        return Ok((Prop::Antisym, rest));
    }
    if let Some(rest) = text.past(b"asym") {
        return Ok((Prop::Asym, rest));
    }
    if let Some(rest) = text.past(b"trans") {
        return Ok((Prop::Trans, rest));
    }
    if let Some(rest) = text.past(b"conn") {
        return Ok((Prop::Conn, rest));
    }
    Err(LineEnd::Form)
}

/// The property at the front as one of this function, where there is one, and the bytes after it.
#[tactic(auto, unfolding(crate::specs::Reading::property_at, crate::specs::Readers::bind, crate::specs::Readers::lift, crate::specs::Readers::pure))]
fn read_property(head: Option<Head>, text: Rest<'_>) -> Result<(Ref, Rest<'_>), LineEnd>
    ensures { Gives result (property_at head (left text.entry)) }
{
    let Some(head) = head else {
        return Err(LineEnd::Form);
    };
    let (prop, rest) = read_prop(text)?;
    Ok((Ref::Property { head, prop }, rest))
}

/// The reference at the front, and the bytes after it: a property of a function, or a lemma.
#[tactic(auto, unfolding(crate::specs::Reading::reference_at, crate::specs::Readers::after, crate::specs::Readers::bind, crate::specs::Readers::lift, crate::specs::Readers::pure))]
pub(crate) fn read_reference<'t>(names: &Names, text: Rest<'t>) -> Result<(Ref, Rest<'t>), LineEnd>
    ensures { Gives result (reference_at names.now (left text.entry)) }
{
    if let Some(after) = text.past(b"%") {
        let (number, rest) = after.number()?;
        let rest = rest.skip(b".")?;
        return read_property(Some(Head::FnVar(number)), rest);
    }
    let (word, rest) = text.word();
    if let Some(after) = rest.past(b".") {
        return read_property(find_head(names, word), after);
    }
    match find_name(names.lemmas.as_slice(), word) {
        Some(lemma) => Ok((Ref::Lemma { lemma }, rest)),
        None => Err(LineEnd::Form),
    }
}

/// The variables at the front, with spaces between, and the bytes after them.
pub(crate) fn read_variables(
    alloc: Global,
    text: Rest<'_>,
) -> Result<(Items<u32>, Rest<'_>), LineEnd>
    ensures { Gives result (numbers_at 32 (left text.entry)) }
{
    let mut variables = Items::new(alloc);
    let (first, mut rest) = text.number()?;
    variables.push(first)?;
    while let Some(after) = rest.past(b" ") {
        let (next, after) = after.number()?;
        variables.push(next)?;
        rest = after;
    }
    Ok((variables, rest))
}
