//! Terms. A name before a `(` is called, and any other is a function argument, so both are read alike.
ghost use Rattle.px_derive.specs.Gives.{left, Gives};
ghost use Rattle.px_derive.specs.Reading.{ty_at, argument_at, arguments_at, construction_at, function_at, fields_at, some_arguments_at, term_at, terms_at};

use crate::line_end::LineEnd;
use crate::lookups::find_constructor;
use crate::rest::Rest;
use crate::types::{read_fun, read_type_arguments};
use px_base::Names;
use px_terms::{Fun, Term};
use sqlite_items::Items;
use std::alloc::Global;

/// What stands in the parentheses of a call.
#[derive(Drop)]
pub(crate) enum Argument {
    Function(Fun),
    Value(Term),
}

impl Argument {
    ghost use Rattle.px_derive.specs.Gives.{Answers};
    ghost use Rattle.px_derive.specs.Reading.{term_of};

    /// The term. A function is none.
    fn into_term(self) -> Result<Term, LineEnd>
        ensures { Answers result (term_of self) }
    {
        match self {
            Argument::Value(term) => Ok(term),
            Argument::Function(_) => Err(LineEnd::Form),
        }
    }
}

/// All that stands there: first the functions, and then the terms.
#[derive(Drop)]
pub(crate) struct Arguments {
    pub(crate) funs: Items<Fun>,
    pub(crate) args: Items<Term>,
}

impl Arguments {
    ghost use Rattle.px_derive.specs.Gives.{Answers};
    ghost use Rattle.px_derive.specs.Reading.{argument_added, no_arguments};
    ghost use Rattle.std.specs.Prelude.{◌≡◌};

    /// No arguments.
    fn new(alloc: Global) -> Arguments
        ensures { result ≡ no_arguments }
    {
        Arguments {
            funs: Items::new(alloc),
            args: Items::new(alloc),
        }
    }

    /// These with one more term.
    fn with_value(self, term: Term) -> Result<Arguments, LineEnd>
        ensures { Answers result (argument_added self (Argument.Value term)) }
    {
        let Arguments { funs, mut args } = self;
        args.push(term)?;
        Ok(Arguments { funs, args })
    }

    /// These with one more function. None follows a term.
    fn with_function(self, fun: Fun) -> Result<Arguments, LineEnd>
        ensures { Answers result (argument_added self (Argument.Function fun)) }
    {
        let Arguments { mut funs, args } = self;
        if !args.is_empty() {
            return Err(LineEnd::Form);
        }
        funs.push(fun)?;
        Ok(Arguments { funs, args })
    }

    /// These with one more.
    fn with(self, argument: Argument) -> Result<Arguments, LineEnd>
        ensures { Answers result (argument_added self argument) }
    {
        match argument {
            Argument::Value(term) => self.with_value(term),
            Argument::Function(fun) => self.with_function(fun),
        }
    }
}

/// The function argument or the term at the front, in which so many levels may nest, and the bytes after it. Its calls nest
/// at most as deep.
#[cycle(terms)]
fn read_argument<'t>(
    alloc: Global,
    names: &Names,
    room: u32,
    text: Rest<'t>,
) -> Result<(Argument, Rest<'t>), LineEnd>
    ensures { Gives result (argument_at names.now room (left text.entry)) }
{
    if room == 0 {
        return Err(LineEnd::Form);
    }
    if let Some(after) = text.past(b"$") {
        let (number, rest) = after.number()?;
        return Ok((Argument::Value(Term::Free(number)), rest));
    }
    if text.begins_digit() {
        let (literal, rest) = text.literal()?;
        return Ok((Argument::Value(Term::Lit(literal)), rest));
    }
    if text.begins_upper() {
        return read_construction(alloc, names, room - 1, text);
    }
    read_called(alloc, names, room - 1, text)
}

/// The constructor on fields at the front, in whose parts so many levels may nest, and the bytes after it.
#[cycle(terms)]
#[tactic(auto, unfolding(crate::specs::Reading::construction_at, crate::specs::Readers::bind, crate::specs::Readers::lift, crate::specs::Readers::pure))]
fn read_construction<'t>(
    alloc: Global,
    names: &Names,
    room: u32,
    text: Rest<'t>,
) -> Result<(Argument, Rest<'t>), LineEnd>
    ensures { Gives result (construction_at names.now (ty_at names.now room) (argument_at names.now room) (left text.entry)) }
{
    let (word, rest) = text.word();
    let Some(constructor) = find_constructor(names.cons.as_slice(), word) else {
        return Err(LineEnd::Form);
    };
    let (types, rest) = read_type_arguments(alloc, names, room, rest)?;
    let (fields, rest) = read_fields(alloc, names, room, rest)?;
    let term = Term::Con {
        datatype: constructor.datatype,
        con: constructor.con,
        types,
        fields,
    };
    Ok((Argument::Value(term), rest))
}

/// The fields at the front, none where there is no `(`, and the bytes after them.
#[cycle(terms)]
#[tactic(auto, unfolding(crate::specs::Reading::fields_at, crate::specs::Reading::terms_at, crate::specs::Readers::opened_at, crate::specs::Readers::after, crate::specs::Readers::bind, crate::specs::Readers::pure))]
fn read_fields<'t>(
    alloc: Global,
    names: &Names,
    room: u32,
    text: Rest<'t>,
) -> Result<(Items<Term>, Rest<'t>), LineEnd>
    ensures { Gives result (fields_at (argument_at names.now room) (left text.entry)) }
{
    let Some(after) = text.past(b"(") else {
        return Ok((Items::new(alloc), text));
    };
    let (fields, rest) = read_terms(alloc, names, room, after)?;
    let rest = rest.skip(b")")?;
    Ok((fields, rest))
}

/// The function at the front, or the call of it where a `(` follows, in whose parts so many levels may nest; and the bytes
/// after it.
#[cycle(terms)]
#[tactic(auto, unfolding(crate::specs::Reading::function_at, crate::specs::Reading::called_at, crate::specs::Readers::after, crate::specs::Readers::bind, crate::specs::Readers::pure))]
fn read_called<'t>(
    alloc: Global,
    names: &Names,
    room: u32,
    text: Rest<'t>,
) -> Result<(Argument, Rest<'t>), LineEnd>
    ensures { Gives result (function_at names.now room (argument_at names.now room) (left text.entry)) }
{
    let (fun, rest) = read_fun(alloc, names, room, text)?;
    let Some(after) = rest.past(b"(") else {
        return Ok((Argument::Function(fun), rest));
    };
    let (all, rest) = read_arguments(alloc, names, room, after)?;
    let Arguments { funs, args } = all;
    Ok((Argument::Value(Term::Call { fun, funs, args }), rest))
}

/// The arguments of a call up to its `)`, and the bytes after that.
#[cycle(terms)]
#[tactic(auto, unfolding(crate::specs::Reading::arguments_at, crate::specs::Readers::closed_at, crate::specs::Readers::after, crate::specs::Readers::bind, crate::specs::Readers::pure))]
fn read_arguments<'t>(
    alloc: Global,
    names: &Names,
    room: u32,
    text: Rest<'t>,
) -> Result<(Arguments, Rest<'t>), LineEnd>
    ensures { Gives result (arguments_at (argument_at names.now room) (left text.entry)) }
{
    if let Some(rest) = text.past(b")") {
        return Ok((Arguments::new(alloc), rest));
    }
    let (all, rest) = read_some_arguments(alloc, names, room, text)?;
    let rest = rest.skip(b")")?;
    Ok((all, rest))
}

/// The arguments at the front, with commas between, and the bytes after them.
#[cycle(terms)]
fn read_some_arguments<'t>(
    alloc: Global,
    names: &Names,
    room: u32,
    text: Rest<'t>,
) -> Result<(Arguments, Rest<'t>), LineEnd>
    ensures { Gives result (some_arguments_at (argument_at names.now room) (left text.entry)) }
{
    let (first, mut rest) = read_argument(alloc, names, room, text)?;
    let mut all = Arguments::new(alloc).with(first)?;
    while let Some(after) = rest.past(b",") {
        let (next, after) = read_argument(alloc, names, room, after)?;
        all = all.with(next)?;
        rest = after;
    }
    Ok((all, rest))
}

/// The term at the front, in which so many levels may nest, and the bytes after it.
#[cycle(terms)]
#[tactic(auto, unfolding(crate::specs::Reading::term_at, crate::specs::Reading::value_at, crate::specs::Readers::bind, crate::specs::Readers::lift))]
pub(crate) fn read_term<'t>(
    alloc: Global,
    names: &Names,
    room: u32,
    text: Rest<'t>,
) -> Result<(Term, Rest<'t>), LineEnd>
    ensures { Gives result (term_at names.now room (left text.entry)) }
{
    let (argument, rest) = read_argument(alloc, names, room, text)?;
    let term = argument.into_term()?;
    Ok((term, rest))
}

/// The terms at the front, with commas between, and the bytes after them.
#[cycle(terms)]
pub(crate) fn read_terms<'t>(
    alloc: Global,
    names: &Names,
    room: u32,
    text: Rest<'t>,
) -> Result<(Items<Term>, Rest<'t>), LineEnd>
    ensures { Gives result (terms_at names.now room (left text.entry)) }
{
    let mut terms = Items::new(alloc);
    let (first, mut rest) = read_term(alloc, names, room, text)?;
    terms.push(first)?;
    while let Some(after) = rest.past(b",") {
        let (next, after) = read_term(alloc, names, room, after)?;
        terms.push(next)?;
        rest = after;
    }
    Ok((terms, rest))
}
