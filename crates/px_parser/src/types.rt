//! Types.
ghost use Rattle.px_parser.specs.Gives.{words, Gives};
ghost use Rattle.px_parser.specs.Reading.{type_at, types_at, type_arguments_at, opened_at, upper_at, list_at};
ghost use Rattle.px_lexer.specs.declared.token.Mark.TheVariants.{Less, Greater, Comma};

use crate::phrase_end::PhraseEnd;
use crate::rest::Rest;
use crate::surface::{Name, SType};
use px_lexer::Mark;
use sqlite_items::Items;
use std::alloc::Global;

/// The type at the front, around whose tokens so many more parts may be open, the type among them; and the tokens after
/// it. Its calls nest at most as deep as types may.
#[cycle(types)]
pub(crate) fn read_type<'t>(
    alloc: Global,
    room: u32,
    tokens: Rest<'t>,
) -> Result<(SType, Rest<'t>), PhraseEnd>
    ensures { Gives result (type_at room (words tokens.entry)) }
{
    if room == 0 {
        return Err(tokens.fault());
    }
    let (name, rest) = tokens.upper(alloc)?;
    let (args, rest) = read_type_arguments(alloc, room - 1, rest)?;
    Ok((SType { name, args }, rest))
}

/// The type arguments at the front, none where there is no `<`, and the tokens after them.
#[cycle(types)]
#[tactic(auto, unfolding(crate::specs::Reading::type_arguments_at, crate::specs::Reading::types_at, crate::specs::Reading::between_at, crate::specs::Reading::inside, crate::specs::Readers::choice, crate::specs::Readers::bind, crate::specs::Readers::pure, crate::specs::Readers::fail))]
pub(crate) fn read_type_arguments<'t>(
    alloc: Global,
    room: u32,
    tokens: Rest<'t>,
) -> Result<(Items<SType>, Rest<'t>), PhraseEnd>
    ensures { Gives result (type_arguments_at room (words tokens.entry)) }
{
    let Some(rest) = tokens.past(Mark::Less) else {
        return Ok((Items::new(alloc), tokens));
    };
    if room == 0 {
        return Err(tokens.fault());
    }
    let (types, rest) = read_types(alloc, room, rest)?;
    let rest = rest.mark(Mark::Greater)?;
    Ok((types, rest))
}

/// The types at the front, with commas between, and the tokens after them.
#[cycle(types)]
pub(crate) fn read_types<'t>(
    alloc: Global,
    room: u32,
    tokens: Rest<'t>,
) -> Result<(Items<SType>, Rest<'t>), PhraseEnd>
    ensures { Gives result (types_at room (words tokens.entry)) }
{
    let mut types = Items::new(alloc);
    let (first, mut rest) = read_type(alloc, room, tokens)?;
    types.push(first)?;
    while let Some(after) = rest.past(Mark::Comma) {
        let (next, after) = read_type(alloc, room, after)?;
        types.push(next)?;
        rest = after;
    }
    Ok((types, rest))
}
