//! Expressions.
ghost use Rattle.px_parser.specs.Gives.{words, Gives};
ghost use Rattle.px_parser.specs.Reading.{expr_at, exprs_at, upper_expr_at, lower_expr_at, fields_at, arguments_at, arm_at, arms_at, match_at};

use crate::lists::read_pattern_variables;
use crate::phrase_end::PhraseEnd;
use crate::rest::Rest;
use crate::surface::{SArm, SExpr, SExprKind};
use crate::types::read_type_arguments;
use px_lexer::{Key, Mark};
use sqlite_items::{Boxed, Items};
use std::alloc::Global;

/// The expression at the front, around whose tokens so many more parts may be open, the expression among them; and the
/// tokens after it. Its calls nest at most as deep as expressions may.
#[cycle(expressions)]
pub(crate) fn read_expression<'t>(
    alloc: Global,
    room: u32,
    tokens: Rest<'t>,
) -> Result<(SExpr, Rest<'t>), PhraseEnd>
    ensures { Gives result (expr_at room (words tokens.entry)) }
{
    if room == 0 {
        return Err(tokens.fault());
    }
    let room = room - 1;
    if tokens.begins_number() {
        tokens.number()
    } else if tokens.begins_upper() {
        read_construction(alloc, room, tokens)
    } else if tokens.begins_lower() {
        read_call(alloc, room, tokens)
    } else {
        read_match(alloc, room, tokens)
    }
}

/// The expression at the front that begins with a constructor, and the tokens after it.
#[cycle(expressions)]
#[tactic(auto, unfolding(crate::specs::Reading::upper_expr_at, crate::specs::Reading::upper_expr_with, crate::specs::Readers::bind, crate::specs::Readers::pure))]
fn read_construction<'t>(
    alloc: Global,
    room: u32,
    tokens: Rest<'t>,
) -> Result<(SExpr, Rest<'t>), PhraseEnd>
    ensures { Gives result (upper_expr_at room (words tokens.entry)) }
{
    let (name, rest) = tokens.upper(alloc)?;
    let (types, rest) = read_type_arguments(alloc, room, rest)?;
    let (fields, rest) = read_fields(alloc, room, rest)?;
    let expression = SExpr {
        at: name.at,
        kind: SExprKind::Upper {
            name,
            types,
            fields,
        },
    };
    Ok((expression, rest))
}

/// The fields of a constructor at the front, none where there is no `(`, and the tokens after them.
#[cycle(expressions)]
#[tactic(auto, unfolding(crate::specs::Reading::fields_at, crate::specs::Reading::fields_with, crate::specs::Reading::inside, crate::specs::Reading::exprs_at, crate::specs::Reading::between_at, crate::specs::Readers::choice, crate::specs::Readers::bind, crate::specs::Readers::pure, crate::specs::Readers::fail))]
fn read_fields<'t>(
    alloc: Global,
    room: u32,
    tokens: Rest<'t>,
) -> Result<(Items<SExpr>, Rest<'t>), PhraseEnd>
    ensures { Gives result (fields_at room (words tokens.entry)) }
{
    let Some(rest) = tokens.past(Mark::ParenL) else {
        return Ok((Items::new(alloc), tokens));
    };
    if room == 0 {
        return Err(tokens.fault());
    }
    let (fields, rest) = read_expressions(alloc, room, rest)?;
    let rest = rest.mark(Mark::ParenR)?;
    Ok((fields, rest))
}

/// The expression at the front that begins with a variable or a function, and the tokens after it.
#[cycle(expressions)]
#[tactic(auto, unfolding(crate::specs::Reading::lower_expr_at, crate::specs::Reading::lower_expr_with, crate::specs::Readers::bind, crate::specs::Readers::pure))]
fn read_call<'t>(alloc: Global, room: u32, tokens: Rest<'t>) -> Result<(SExpr, Rest<'t>), PhraseEnd>
    ensures { Gives result (lower_expr_at room (words tokens.entry)) }
{
    let (name, rest) = tokens.lower(alloc)?;
    let (types, rest) = read_type_arguments(alloc, room, rest)?;
    let (args, rest) = read_arguments(alloc, room, rest)?;
    let expression = SExpr {
        at: name.at,
        kind: SExprKind::Lower { name, types, args },
    };
    Ok((expression, rest))
}

/// The arguments at the front, `None` where there is no `(`, and the tokens after them.
#[cycle(expressions)]
#[tactic(auto, unfolding(crate::specs::Reading::arguments_at, crate::specs::Reading::arguments_with, crate::specs::Reading::exprs_at, crate::specs::Reading::up_to, crate::specs::Reading::between_at, crate::specs::Readers::choice, crate::specs::Readers::bind, crate::specs::Readers::pure))]
fn read_arguments<'t>(
    alloc: Global,
    room: u32,
    tokens: Rest<'t>,
) -> Result<(Option<Items<SExpr>>, Rest<'t>), PhraseEnd>
    ensures { Gives result (arguments_at room (words tokens.entry)) }
{
    let Some(rest) = tokens.past(Mark::ParenL) else {
        return Ok((None, tokens));
    };
    if let Some(rest) = rest.past(Mark::ParenR) {
        return Ok((Some(Items::new(alloc)), rest));
    }
    let (args, rest) = read_expressions(alloc, room, rest)?;
    let rest = rest.mark(Mark::ParenR)?;
    Ok((Some(args), rest))
}

/// The expressions at the front, with commas between, and the tokens after them.
#[cycle(expressions)]
fn read_expressions<'t>(
    alloc: Global,
    room: u32,
    tokens: Rest<'t>,
) -> Result<(Items<SExpr>, Rest<'t>), PhraseEnd>
    ensures { Gives result (exprs_at room (words tokens.entry)) }
{
    let mut expressions = Items::new(alloc);
    let (first, mut rest) = read_expression(alloc, room, tokens)?;
    expressions.push(first)?;
    while let Some(after) = rest.past(Mark::Comma) {
        let (next, after) = read_expression(alloc, room, after)?;
        expressions.push(next)?;
        rest = after;
    }
    Ok((expressions, rest))
}

/// The match at the front, and the tokens after it.
#[cycle(expressions)]
#[tactic(auto, unfolding(crate::specs::Reading::match_at, crate::specs::Reading::match_with, crate::specs::Reading::inside, crate::specs::Reading::between_at, crate::specs::Readers::fail, crate::specs::Readers::bind, crate::specs::Readers::pure))]
fn read_match<'t>(
    alloc: Global,
    room: u32,
    tokens: Rest<'t>,
) -> Result<(SExpr, Rest<'t>), PhraseEnd>
    ensures { Gives result (match_at room (words tokens.entry)) }
{
    if room == 0 {
        return Err(tokens.fault());
    }
    let (at, rest) = tokens.key(Key::KMatch)?;
    let (on, rest) = read_expression(alloc, room, rest)?;
    let rest = rest.mark(Mark::BraceL)?;
    let (arms, rest) = read_arms(alloc, room, rest)?;
    let rest = rest.mark(Mark::BraceR)?;
    let kind = SExprKind::Match {
        on: Boxed::new(alloc, on)?,
        arms,
    };
    Ok((SExpr { at, kind }, rest))
}

/// The arms at the front, with commas between, and the tokens after them.
#[cycle(expressions)]
fn read_arms<'t>(
    alloc: Global,
    room: u32,
    tokens: Rest<'t>,
) -> Result<(Items<SArm>, Rest<'t>), PhraseEnd>
    ensures { Gives result (arms_at room (words tokens.entry)) }
{
    let mut arms = Items::new(alloc);
    let (first, mut rest) = read_arm(alloc, room, tokens)?;
    arms.push(first)?;
    while let Some(after) = rest.past(Mark::Comma) {
        let (next, after) = read_arm(alloc, room, after)?;
        arms.push(next)?;
        rest = after;
    }
    Ok((arms, rest))
}

/// The arm at the front, and the tokens after it.
#[cycle(expressions)]
#[tactic(auto, unfolding(crate::specs::Reading::arm_at, crate::specs::Reading::arm_with, crate::specs::Readers::bind, crate::specs::Readers::pure))]
fn read_arm<'t>(alloc: Global, room: u32, tokens: Rest<'t>) -> Result<(SArm, Rest<'t>), PhraseEnd>
    ensures { Gives result (arm_at room (words tokens.entry)) }
{
    let (name, rest) = tokens.upper(alloc)?;
    let (vars, rest) = read_pattern_variables(alloc, rest)?;
    let rest = rest.mark(Mark::FatArrow)?;
    let (body, rest) = read_expression(alloc, room, rest)?;
    Ok((SArm { name, vars, body }, rest))
}
