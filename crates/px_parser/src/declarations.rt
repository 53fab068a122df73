//! Declarations.
ghost use Rattle.std.specs.Prelude.{◌≡◌, [], IfOk};
ghost use Rattle.px_parser.specs.Gives.{words, Gives};
ghost use Rattle.px_parser.specs.Reading.{con_fields_at, con_at, cons_at, data_at, claim_at, equation_at, equations_at, lemma_at, function_at, functions_at, merge_functions_at, replica_at, definition_at, item_at, items_at};

use crate::expressions::read_expression;
use crate::lists::{read_properties, read_type_parameters, read_with};
use crate::parameters::read_params;
use crate::phrase_end::PhraseEnd;
use crate::rest::Rest;
use crate::surface::{Item, SClaim, SCon, SData, SDef, SEquation, SFun, SLemma, SReplica, SType};
use crate::types::{read_type, read_type_arguments, read_types};
use px_base::limits::NESTING;
use px_lexer::{Key, Mark};
use sqlite_items::Items;
use std::alloc::Global;

/// The types of a constructor's fields at the front, none where there is no `(`, and the tokens after them.
#[tactic(auto, unfolding(crate::specs::Reading::con_fields_at, crate::specs::Reading::opened_at, crate::specs::Reading::between_at, crate::specs::Readers::choice, crate::specs::Readers::bind, crate::specs::Readers::pure))]
fn read_con_fields<'t>(
    alloc: Global,
    tokens: Rest<'t>,
) -> Result<(Items<SType>, Rest<'t>), PhraseEnd>
    ensures { Gives result (con_fields_at (words tokens.entry)) }
{
    let Some(rest) = tokens.past(Mark::ParenL) else {
        return Ok((Items::new(alloc), tokens));
    };
    let (fields, rest) = read_types(alloc, NESTING, rest)?;
    let rest = rest.mark(Mark::ParenR)?;
    Ok((fields, rest))
}

/// The constructor at the front, and the tokens after it.
#[tactic(auto, unfolding(crate::specs::Reading::con_at, crate::specs::Readers::bind, crate::specs::Readers::pure))]
fn read_con<'t>(alloc: Global, tokens: Rest<'t>) -> Result<(SCon, Rest<'t>), PhraseEnd>
    ensures { Gives result (con_at (words tokens.entry)) }
{
    let (name, rest) = tokens.upper(alloc)?;
    let (fields, rest) = read_con_fields(alloc, rest)?;
    Ok((SCon { name, fields }, rest))
}

/// The constructors at the front, with commas between, and the tokens after them.
fn read_cons<'t>(alloc: Global, tokens: Rest<'t>) -> Result<(Items<SCon>, Rest<'t>), PhraseEnd>
    ensures { Gives result (cons_at (words tokens.entry)) }
{
    let mut cons = Items::new(alloc);
    let (first, mut rest) = read_con(alloc, tokens)?;
    cons.push(first)?;
    while let Some(after) = rest.past(Mark::Comma) {
        let (next, after) = read_con(alloc, after)?;
        cons.push(next)?;
        rest = after;
    }
    Ok((cons, rest))
}

/// The datatype at the front, and the tokens after it.
#[tactic(auto, unfolding(crate::specs::Reading::data_at, crate::specs::Reading::between_at, crate::specs::Readers::bind, crate::specs::Readers::pure))]
fn read_data<'t>(alloc: Global, tokens: Rest<'t>) -> Result<(SData, Rest<'t>), PhraseEnd>
    ensures { Gives result (data_at (words tokens.entry)) }
{
    let (at, rest) = tokens.key(Key::KData)?;
    let (name, rest) = rest.upper(alloc)?;
    let (tparams, rest) = read_type_parameters(alloc, rest)?;
    let rest = rest.mark(Mark::BraceL)?;
    let (cons, rest) = read_cons(alloc, rest)?;
    let rest = rest.mark(Mark::BraceR)?;
    let declaration = SData {
        at,
        name,
        tparams,
        cons,
    };
    Ok((declaration, rest))
}

/// The definition at the front, and the tokens after it.
#[tactic(auto, unfolding(crate::specs::Reading::definition_at, crate::specs::Reading::between_at, crate::specs::Readers::bind, crate::specs::Readers::pure))]
fn read_definition<'t>(alloc: Global, tokens: Rest<'t>) -> Result<(SDef, Rest<'t>), PhraseEnd>
    ensures { Gives result (definition_at (words tokens.entry)) }
{
    let (at, rest) = tokens.key(Key::KDef)?;
    let (name, rest) = rest.lower(alloc)?;
    let (tparams, rest) = read_type_parameters(alloc, rest)?;
    let (params, rest) = read_params(alloc, rest)?;
    let rest = rest.mark(Mark::Colon)?;
    let (result, rest) = read_type(alloc, NESTING, rest)?;
    let (props, rest) = read_with(alloc, rest)?;
    let rest = rest.mark(Mark::BraceL)?;
    let (body, rest) = read_expression(alloc, NESTING, rest)?;
    let rest = rest.mark(Mark::BraceR)?;
    let declaration = SDef {
        at,
        name,
        tparams,
        params,
        result,
        props,
        body,
    };
    Ok((declaration, rest))
}

/// The claim at the front, and the tokens after it.
#[tactic(auto, unfolding(crate::specs::Reading::claim_at, crate::specs::Readers::bind, crate::specs::Readers::pure))]
fn read_claim<'t>(alloc: Global, tokens: Rest<'t>) -> Result<(SClaim, Rest<'t>), PhraseEnd>
    ensures { Gives result (claim_at (words tokens.entry)) }
{
    let (at, rest) = tokens.key(Key::KClaim)?;
    let (name, rest) = rest.lower(alloc)?;
    let rest = rest.mark(Mark::Colon)?;
    let (props, rest) = read_properties(alloc, rest)?;
    Ok((SClaim { at, name, props }, rest))
}

/// The equation at the front, and the tokens after it.
#[tactic(auto, unfolding(crate::specs::Reading::equation_at, crate::specs::Readers::bind, crate::specs::Readers::pure))]
fn read_equation<'t>(alloc: Global, tokens: Rest<'t>) -> Result<(SEquation, Rest<'t>), PhraseEnd>
    ensures { Gives result (equation_at (words tokens.entry)) }
{
    let (left, rest) = read_expression(alloc, NESTING, tokens)?;
    let rest = rest.mark(Mark::Equal)?;
    let (right, rest) = read_expression(alloc, NESTING, rest)?;
    Ok((SEquation { left, right }, rest))
}

/// The equations at the front, with `=>` between, and the tokens after them.
fn read_equations<'t>(
    alloc: Global,
    tokens: Rest<'t>,
) -> Result<(Items<SEquation>, Rest<'t>), PhraseEnd>
    ensures { Gives result (equations_at (words tokens.entry)) }
{
    let mut equations = Items::new(alloc);
    let (first, mut rest) = read_equation(alloc, tokens)?;
    equations.push(first)?;
    while let Some(after) = rest.past(Mark::FatArrow) {
        let (next, after) = read_equation(alloc, after)?;
        equations.push(next)?;
        rest = after;
    }
    Ok((equations, rest))
}

/// The lemma at the front, and the tokens after it.
#[tactic(auto, unfolding(crate::specs::Reading::lemma_at, crate::specs::Readers::bind, crate::specs::Readers::pure))]
fn read_lemma<'t>(alloc: Global, tokens: Rest<'t>) -> Result<(SLemma, Rest<'t>), PhraseEnd>
    ensures { Gives result (lemma_at (words tokens.entry)) }
{
    let (at, rest) = tokens.key(Key::KLemma)?;
    let (name, rest) = rest.lower(alloc)?;
    let (tparams, rest) = read_type_parameters(alloc, rest)?;
    let (params, rest) = read_params(alloc, rest)?;
    let rest = rest.mark(Mark::Colon)?;
    let (equations, rest) = read_equations(alloc, rest)?;
    let declaration = SLemma {
        at,
        name,
        tparams,
        params,
        equations,
    };
    Ok((declaration, rest))
}

/// The function at the front, and the tokens after it.
#[tactic(auto, unfolding(crate::specs::Reading::function_at, crate::specs::Readers::bind, crate::specs::Readers::pure))]
fn read_function<'t>(alloc: Global, tokens: Rest<'t>) -> Result<(SFun, Rest<'t>), PhraseEnd>
    ensures { Gives result (function_at (words tokens.entry)) }
{
    let (name, rest) = tokens.lower(alloc)?;
    let (args, rest) = read_type_arguments(alloc, NESTING, rest)?;
    Ok((SFun { name, args }, rest))
}

/// The functions at the front, with commas between, and the tokens after them.
fn read_functions<'t>(alloc: Global, tokens: Rest<'t>) -> Result<(Items<SFun>, Rest<'t>), PhraseEnd>
    ensures { Gives result (functions_at (words tokens.entry)) }
{
    let mut functions = Items::new(alloc);
    let (first, mut rest) = read_function(alloc, tokens)?;
    functions.push(first)?;
    while let Some(after) = rest.past(Mark::Comma) {
        let (next, after) = read_function(alloc, after)?;
        functions.push(next)?;
        rest = after;
    }
    Ok((functions, rest))
}

/// The functions that a merge is given at the front, none where there is no `(`, and the tokens after them.
#[tactic(auto, unfolding(crate::specs::Reading::merge_functions_at, crate::specs::Reading::opened_at, crate::specs::Reading::between_at, crate::specs::Readers::choice, crate::specs::Readers::bind, crate::specs::Readers::pure))]
fn read_merge_functions<'t>(
    alloc: Global,
    tokens: Rest<'t>,
) -> Result<(Items<SFun>, Rest<'t>), PhraseEnd>
    ensures { Gives result (merge_functions_at (words tokens.entry)) }
{
    let Some(rest) = tokens.past(Mark::ParenL) else {
        return Ok((Items::new(alloc), tokens));
    };
    let (functions, rest) = read_functions(alloc, rest)?;
    let rest = rest.mark(Mark::ParenR)?;
    Ok((functions, rest))
}

/// The replica at the front, and the tokens after it.
#[tactic(auto, unfolding(crate::specs::Reading::replica_at, crate::specs::Readers::bind, crate::specs::Readers::pure))]
fn read_replica<'t>(alloc: Global, tokens: Rest<'t>) -> Result<(SReplica, Rest<'t>), PhraseEnd>
    ensures { Gives result (replica_at (words tokens.entry)) }
{
    let (at, rest) = tokens.key(Key::KReplica)?;
    let (name, rest) = rest.lower(alloc)?;
    let rest = rest.mark(Mark::Colon)?;
    let (state, rest) = read_type(alloc, NESTING, rest)?;
    let (_, rest) = rest.key(Key::KFrom)?;
    let (from, rest) = read_expression(alloc, NESTING, rest)?;
    let (_, rest) = rest.key(Key::KBy)?;
    let (merge, rest) = read_function(alloc, rest)?;
    let (funs, rest) = read_merge_functions(alloc, rest)?;
    let declaration = SReplica {
        at,
        name,
        state,
        from,
        merge,
        funs,
    };
    Ok((declaration, rest))
}

/// The declaration at the front, and the tokens after it.
#[tactic(auto, unfolding(crate::specs::Reading::item_at, crate::specs::Readers::choice, crate::specs::Readers::bind, crate::specs::Readers::pure))]
fn read_item<'t>(alloc: Global, tokens: Rest<'t>) -> Result<(Item, Rest<'t>), PhraseEnd>
    ensures { Gives result (item_at (words tokens.entry)) }
{
    if tokens.begins_key(Key::KData) {
        let (declaration, rest) = read_data(alloc, tokens)?;
        Ok((Item::Datatype(declaration), rest))
    } else if tokens.begins_key(Key::KDef) {
        let (declaration, rest) = read_definition(alloc, tokens)?;
        Ok((Item::Definition(declaration), rest))
    } else if tokens.begins_key(Key::KClaim) {
        let (declaration, rest) = read_claim(alloc, tokens)?;
        Ok((Item::Claim(declaration), rest))
    } else if tokens.begins_key(Key::KLemma) {
        let (declaration, rest) = read_lemma(alloc, tokens)?;
        Ok((Item::Lemma(declaration), rest))
    } else {
        let (declaration, rest) = read_replica(alloc, tokens)?;
        Ok((Item::Replica(declaration), rest))
    }
}

/// The declarations that all the tokens are.
pub(crate) fn read_items<'t>(
    alloc: Global,
    tokens: Rest<'t>,
) -> Result<(Items<Item>, Rest<'t>), PhraseEnd>
    ensures reads { Gives result (items_at (words tokens.entry)) }
    ensures all { IfOk result (λ found. words found.1 ≡ []) }
{
    let mut items = Items::new(alloc);
    let mut rest = tokens;
    'each: while !rest.is_empty() {
        let (item, after) = read_item(alloc, rest)?;
        items.push(item)?;
        rest = after;
    }
    Ok((items, rest))
}
