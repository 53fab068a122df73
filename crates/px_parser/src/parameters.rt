//! Parameters.
ghost use Rattle.px_parser.specs.Gives.{words, Gives};
ghost use Rattle.px_parser.specs.Reading.{fn_type_at, param_kind_at, param_at, param_list_at, params_at};

use crate::lists::read_param_with;
use crate::phrase_end::PhraseEnd;
use crate::rest::Rest;
use crate::surface::{SFnType, SParam, SParamKind};
use crate::types::{read_type, read_types};
use px_base::limits::NESTING;
use px_lexer::{Key, Mark};
use sqlite_items::Items;
use std::alloc::Global;

/// The function type at the front, and the tokens after it.
#[tactic(auto, unfolding(crate::specs::Reading::fn_type_at, crate::specs::Reading::between_at, crate::specs::Readers::bind, crate::specs::Readers::pure))]
fn read_fn_type<'t>(alloc: Global, tokens: Rest<'t>) -> Result<(SFnType, Rest<'t>), PhraseEnd>
    ensures { Gives result (fn_type_at (words tokens.entry)) }
{
    let (at, rest) = tokens.key(Key::KFn)?;
    let rest = rest.mark(Mark::ParenL)?;
    let (params, rest) = read_types(alloc, NESTING - 1, rest)?;
    let rest = rest.mark(Mark::ParenR)?;
    let rest = rest.mark(Mark::Arrow)?;
    let (result, rest) = read_type(alloc, NESTING - 1, rest)?;
    let (props, rest) = read_param_with(alloc, rest)?;
    let function = SFnType {
        at,
        params,
        result,
        props,
    };
    Ok((function, rest))
}

/// What a parameter is, at the front, and the tokens after it.
#[tactic(auto, unfolding(crate::specs::Reading::param_kind_at, crate::specs::Readers::choice, crate::specs::Readers::bind, crate::specs::Readers::pure))]
fn read_param_kind<'t>(alloc: Global, tokens: Rest<'t>) -> Result<(SParamKind, Rest<'t>), PhraseEnd>
    ensures { Gives result (param_kind_at (words tokens.entry)) }
{
    if tokens.begins_key(Key::KFn) {
        let (function, rest) = read_fn_type(alloc, tokens)?;
        Ok((SParamKind::Function(function), rest))
    } else {
        let (value, rest) = read_type(alloc, NESTING, tokens)?;
        Ok((SParamKind::Value(value), rest))
    }
}

/// The parameter at the front, and the tokens after it.
#[tactic(auto, unfolding(crate::specs::Reading::param_at, crate::specs::Readers::bind, crate::specs::Readers::pure))]
fn read_param<'t>(alloc: Global, tokens: Rest<'t>) -> Result<(SParam, Rest<'t>), PhraseEnd>
    ensures { Gives result (param_at (words tokens.entry)) }
{
    let (name, rest) = tokens.lower(alloc)?;
    let rest = rest.mark(Mark::Colon)?;
    let (kind, rest) = read_param_kind(alloc, rest)?;
    Ok((SParam { name, kind }, rest))
}

/// The parameters at the front, with commas between, and the tokens after them.
fn read_param_list<'t>(
    alloc: Global,
    tokens: Rest<'t>,
) -> Result<(Items<SParam>, Rest<'t>), PhraseEnd>
    ensures { Gives result (param_list_at (words tokens.entry)) }
{
    let mut params = Items::new(alloc);
    let (first, mut rest) = read_param(alloc, tokens)?;
    params.push(first)?;
    while let Some(after) = rest.past(Mark::Comma) {
        let (next, after) = read_param(alloc, after)?;
        params.push(next)?;
        rest = after;
    }
    Ok((params, rest))
}

/// The parameters in parentheses at the front, and the tokens after them.
#[tactic(auto, unfolding(crate::specs::Reading::params_at, crate::specs::Reading::up_to, crate::specs::Reading::between_at, crate::specs::Readers::choice, crate::specs::Readers::bind, crate::specs::Readers::pure))]
pub(crate) fn read_params<'t>(
    alloc: Global,
    tokens: Rest<'t>,
) -> Result<(Items<SParam>, Rest<'t>), PhraseEnd>
    ensures { Gives result (params_at (words tokens.entry)) }
{
    let rest = tokens.mark(Mark::ParenL)?;
    if let Some(rest) = rest.past(Mark::ParenR) {
        return Ok((Items::new(alloc), rest));
    }
    let (params, rest) = read_param_list(alloc, rest)?;
    let rest = rest.mark(Mark::ParenR)?;
    Ok((params, rest))
}
