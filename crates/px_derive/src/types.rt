//! Types and functions.
ghost use Rattle.px_derive.specs.Gives.{left, Gives};
ghost use Rattle.px_derive.specs.Reading.{ty_at, tys_at, angles_at, datatype_at, head_at, fun_at, funs_at};

use crate::line_end::LineEnd;
use crate::lookups::{find_head, find_name, is_word};
use crate::rest::Rest;
use px_base::{Head, Names};
use px_terms::{Fun, Ty};
use sqlite_items::Items;
use std::alloc::Global;

/// The type at the front, in which so many levels may nest, and the bytes after it. Its calls nest at most as deep.
#[cycle(types)]
pub(crate) fn read_type<'t>(
    alloc: Global,
    names: &Names,
    room: u32,
    text: Rest<'t>,
) -> Result<(Ty, Rest<'t>), LineEnd>
    ensures { Gives result (ty_at names.now room (left text.entry)) }
{
    if room == 0 {
        return Err(LineEnd::Form);
    }
    if let Some(after) = text.past(b"'") {
        let (number, rest) = after.number()?;
        return Ok((Ty::Var(number), rest));
    }
    let (word, rest) = text.word();
    if is_word(word, b"Word") {
        return Ok((Ty::Word, rest));
    }
    read_datatype(alloc, names, room - 1, word, rest)
}

/// The datatype of this name with the arguments at the front, in which so many levels may nest, and the bytes after them.
#[cycle(types)]
#[tactic(auto, unfolding(crate::specs::Reading::datatype_at, crate::specs::Readers::bind, crate::specs::Readers::lift, crate::specs::Readers::pure))]
fn read_datatype<'t>(
    alloc: Global,
    names: &Names,
    room: u32,
    word: &[u8],
    text: Rest<'t>,
) -> Result<(Ty, Rest<'t>), LineEnd>
    ensures { Gives result (datatype_at names.now (ty_at names.now room) word.now (left text.entry)) }
{
    let Some(datatype) = find_name(names.datatypes.as_slice(), word) else {
        return Err(LineEnd::Form);
    };
    let (args, rest) = read_type_arguments(alloc, names, room, text)?;
    Ok((Ty::Con { datatype, args }, rest))
}

/// The type arguments at the front, none where there is no `<`, and the bytes after them.
#[cycle(types)]
#[tactic(auto, unfolding(crate::specs::Reading::angles_at, crate::specs::Reading::tys_at, crate::specs::Readers::opened_at, crate::specs::Readers::after, crate::specs::Readers::bind, crate::specs::Readers::pure))]
pub(crate) fn read_type_arguments<'t>(
    alloc: Global,
    names: &Names,
    room: u32,
    text: Rest<'t>,
) -> Result<(Items<Ty>, Rest<'t>), LineEnd>
    ensures { Gives result (angles_at (ty_at names.now room) (left text.entry)) }
{
    let Some(after) = text.past(b"<") else {
        return Ok((Items::new(alloc), text));
    };
    let (types, rest) = read_types(alloc, names, room, after)?;
    let rest = rest.skip(b">")?;
    Ok((types, rest))
}

/// The types at the front, with commas between, and the bytes after them.
#[cycle(types)]
pub(crate) fn read_types<'t>(
    alloc: Global,
    names: &Names,
    room: u32,
    text: Rest<'t>,
) -> Result<(Items<Ty>, Rest<'t>), LineEnd>
    ensures { Gives result (tys_at names.now room (left text.entry)) }
{
    let mut types = Items::new(alloc);
    let (first, mut rest) = read_type(alloc, names, room, text)?;
    types.push(first)?;
    while let Some(after) = rest.past(b",") {
        let (next, after) = read_type(alloc, names, room, after)?;
        types.push(next)?;
        rest = after;
    }
    Ok((types, rest))
}

/// The definition, the built-in or the function variable at the front, and the bytes after it.
#[tactic(auto, unfolding(crate::specs::Reading::head_at, crate::specs::Readers::after, crate::specs::Readers::bind, crate::specs::Readers::pure, crate::specs::Readers::lift))]
pub(crate) fn read_head<'t>(names: &Names, text: Rest<'t>) -> Result<(Head, Rest<'t>), LineEnd>
    ensures { Gives result (head_at names.now (left text.entry)) }
{
    if let Some(after) = text.past(b"%") {
        let (number, rest) = after.number()?;
        return Ok((Head::FnVar(number), rest));
    }
    let (word, rest) = text.word();
    match find_head(names, word) {
        Some(head) => Ok((head, rest)),
        None => Err(LineEnd::Form),
    }
}

/// The function at the front, in whose types so many levels may nest, and the bytes after it.
#[tactic(auto, unfolding(crate::specs::Reading::fun_at, crate::specs::Readers::bind, crate::specs::Readers::pure))]
pub(crate) fn read_fun<'t>(
    alloc: Global,
    names: &Names,
    room: u32,
    text: Rest<'t>,
) -> Result<(Fun, Rest<'t>), LineEnd>
    ensures { Gives result (fun_at names.now room (left text.entry)) }
{
    let (head, rest) = read_head(names, text)?;
    let (types, rest) = read_type_arguments(alloc, names, room, rest)?;
    Ok((Fun { head, types }, rest))
}

/// The functions at the front, with commas between, and the bytes after them.
pub(crate) fn read_funs<'t>(
    alloc: Global,
    names: &Names,
    room: u32,
    text: Rest<'t>,
) -> Result<(Items<Fun>, Rest<'t>), LineEnd>
    ensures { Gives result (funs_at names.now room (left text.entry)) }
{
    let mut funs = Items::new(alloc);
    let (first, mut rest) = read_fun(alloc, names, room, text)?;
    funs.push(first)?;
    while let Some(after) = rest.past(b",") {
        let (next, after) = read_fun(alloc, names, room, after)?;
        funs.push(next)?;
        rest = after;
    }
    Ok((funs, rest))
}
