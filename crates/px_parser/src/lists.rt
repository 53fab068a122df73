//! Lists of names and of properties.
ghost use Rattle.px_parser.specs.Gives.{words, Gives};
ghost use Rattle.px_parser.specs.Reading.{names_at, lower_at, upper_at, type_parameters_at, pattern_variables_at, properties_at, with_at, param_properties_at, param_with_at};

use crate::phrase_end::PhraseEnd;
use crate::rest::Rest;
use crate::surface::Name;
use px_base::RawProp;
use px_lexer::{Key, Mark};
use sqlite_items::Items;
use std::alloc::Global;

/// The names that begin with a capital letter at the front, with commas between, and the tokens after them.
fn read_uppers<'t>(alloc: Global, tokens: Rest<'t>) -> Result<(Items<Name>, Rest<'t>), PhraseEnd>
    ensures { Gives result (names_at upper_at (words tokens.entry)) }
{
    let mut names = Items::new(alloc);
    let (first, mut rest) = tokens.upper(alloc)?;
    names.push(first)?;
    while let Some(after) = rest.past(Mark::Comma) {
        let (next, after) = after.upper(alloc)?;
        names.push(next)?;
        rest = after;
    }
    Ok((names, rest))
}

/// The names that begin with a small letter at the front, with commas between, and the tokens after them.
fn read_lowers<'t>(alloc: Global, tokens: Rest<'t>) -> Result<(Items<Name>, Rest<'t>), PhraseEnd>
    ensures { Gives result (names_at lower_at (words tokens.entry)) }
{
    let mut names = Items::new(alloc);
    let (first, mut rest) = tokens.lower(alloc)?;
    names.push(first)?;
    while let Some(after) = rest.past(Mark::Comma) {
        let (next, after) = after.lower(alloc)?;
        names.push(next)?;
        rest = after;
    }
    Ok((names, rest))
}

/// The type parameters at the front, none where there is no `<`, and the tokens after them.
#[tactic(auto, unfolding(crate::specs::Reading::type_parameters_at, crate::specs::Reading::opened_at, crate::specs::Reading::between_at, crate::specs::Readers::choice, crate::specs::Readers::bind, crate::specs::Readers::pure))]
pub(crate) fn read_type_parameters<'t>(
    alloc: Global,
    tokens: Rest<'t>,
) -> Result<(Items<Name>, Rest<'t>), PhraseEnd>
    ensures { Gives result (type_parameters_at (words tokens.entry)) }
{
    let Some(rest) = tokens.past(Mark::Less) else {
        return Ok((Items::new(alloc), tokens));
    };
    let (names, rest) = read_uppers(alloc, rest)?;
    let rest = rest.mark(Mark::Greater)?;
    Ok((names, rest))
}

/// The variables of a pattern at the front, none where there is no `(`, and the tokens after them.
#[tactic(auto, unfolding(crate::specs::Reading::pattern_variables_at, crate::specs::Reading::opened_at, crate::specs::Reading::between_at, crate::specs::Readers::choice, crate::specs::Readers::bind, crate::specs::Readers::pure))]
pub(crate) fn read_pattern_variables<'t>(
    alloc: Global,
    tokens: Rest<'t>,
) -> Result<(Items<Name>, Rest<'t>), PhraseEnd>
    ensures { Gives result (pattern_variables_at (words tokens.entry)) }
{
    let Some(rest) = tokens.past(Mark::ParenL) else {
        return Ok((Items::new(alloc), tokens));
    };
    let (names, rest) = read_lowers(alloc, rest)?;
    let rest = rest.mark(Mark::ParenR)?;
    Ok((names, rest))
}

/// The properties at the front, with commas between, and the tokens after them.
pub(crate) fn read_properties<'t>(
    alloc: Global,
    tokens: Rest<'t>,
) -> Result<(Items<RawProp>, Rest<'t>), PhraseEnd>
    ensures { Gives result (properties_at (words tokens.entry)) }
{
    let mut props = Items::new(alloc);
    let (first, mut rest) = tokens.property()?;
    props.push(first)?;
    while let Some(after) = rest.past(Mark::Comma) {
        let (next, after) = after.property()?;
        props.push(next)?;
        rest = after;
    }
    Ok((props, rest))
}

/// The properties after the `with` of a definition, none where there is no `with`, and the tokens after them.
#[tactic(auto, unfolding(crate::specs::Reading::with_at, crate::specs::Readers::choice, crate::specs::Readers::bind, crate::specs::Readers::pure))]
pub(crate) fn read_with<'t>(
    alloc: Global,
    tokens: Rest<'t>,
) -> Result<(Items<RawProp>, Rest<'t>), PhraseEnd>
    ensures { Gives result (with_at (words tokens.entry)) }
{
    if !tokens.begins_key(Key::KWith) {
        return Ok((Items::new(alloc), tokens));
    }
    let (_, rest) = tokens.key(Key::KWith)?;
    read_properties(alloc, rest)
}

/// The properties of a parameter at the front, with commas between, and the tokens after them: a comma before anything
/// but a property comes after the parameter.
fn read_param_properties<'t>(
    alloc: Global,
    tokens: Rest<'t>,
) -> Result<(Items<RawProp>, Rest<'t>), PhraseEnd>
    ensures { Gives result (param_properties_at (words tokens.entry)) }
{
    let mut props = Items::new(alloc);
    let (first, mut rest) = tokens.property()?;
    props.push(first)?;
    while rest.begins_comma_property() {
        let after = rest.mark(Mark::Comma)?;
        let (next, after) = after.property()?;
        props.push(next)?;
        rest = after;
    }
    Ok((props, rest))
}

/// The properties after the `with` of a parameter, none where there is no `with`, and the tokens after them.
#[tactic(auto, unfolding(crate::specs::Reading::param_with_at, crate::specs::Readers::choice, crate::specs::Readers::bind, crate::specs::Readers::pure))]
pub(crate) fn read_param_with<'t>(
    alloc: Global,
    tokens: Rest<'t>,
) -> Result<(Items<RawProp>, Rest<'t>), PhraseEnd>
    ensures { Gives result (param_with_at (words tokens.entry)) }
{
    if !tokens.begins_key(Key::KWith) {
        return Ok((Items::new(alloc), tokens));
    }
    let (_, rest) = tokens.key(Key::KWith)?;
    read_param_properties(alloc, rest)
}
