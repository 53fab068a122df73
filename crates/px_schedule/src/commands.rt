//! What a line of a schedule says.
ghost use Rattle.std.specs.Prelude.{ℕ, Some, None, MatchOption, codes};
ghost use Rattle.px_schedule.specs.Schedules.{Command as AnyCommand, IsLineOf, IsDueAt};
ghost use Rattle.px_schedule.specs.Fields.{opening, said, IsSaid};

use crate::constructors::is_word;
use crate::cuts::cut_at;
use crate::decimals::number_of;
use crate::lower_names::is_lower_name;

/// What the first line says: the name of a replica declaration, and a number of replicas.
#[derive(Clone, Copy)]
pub(crate) struct Opening<'t> {
    pub(crate) name: &'t [u8],
    pub(crate) count: u64,
}

/// What any other line asks for.
#[derive(Clone, Copy)]
pub(crate) enum Request<'t> {
    Update { replica: u64, value: &'t [u8] },
    Send { replica: u64 },
    Deliver { message: u64, replica: u64 },
    Show { replica: u64 },
}

/// What the first line says; None where it has not its form.
pub(crate) fn read_opening(line: &[u8]) -> Option<Opening<'_>>
    ensures { MatchOption result ((command : AnyCommand) → ¬ IsLineOf None line.now command) (λ read. IsLineOf None line.now (opening read)) }
{
    let words = cut_at(b' ', line)?;
    if !is_word(words.front, b"replicas") {
        return None;
    }
    let fields = cut_at(b' ', words.back)?;
    if !is_lower_name(fields.front) {
        return None;
    }
    Some(Opening {
        name: fields.front,
        count: number_of(fields.back)?,
    })
}

/// A replica's number, and the text of a value behind a space.
fn read_update(fields: &[u8]) -> Option<Request<'_>>
    ensures { MatchOption result ((command : AnyCommand) → ¬ IsSaid (codes "update") fields.now command) (λ request. IsSaid (codes "update") fields.now (said request)) }
{
    let fields = cut_at(b' ', fields)?;
    Some(Request::Update {
        replica: number_of(fields.front)?,
        value: fields.back,
    })
}

/// The numbers of a message and of a replica.
fn read_deliver(fields: &[u8]) -> Option<Request<'_>>
    ensures { MatchOption result ((command : AnyCommand) → ¬ IsSaid (codes "deliver") fields.now command) (λ request. IsSaid (codes "deliver") fields.now (said request)) }
{
    let fields = cut_at(b' ', fields)?;
    Some(Request::Deliver {
        message: number_of(fields.front)?,
        replica: number_of(fields.back)?,
    })
}

/// A replica's number, to send its state.
fn read_send(fields: &[u8]) -> Option<Request<'_>>
    ensures { MatchOption result ((command : AnyCommand) → ¬ IsSaid (codes "send") fields.now command) (λ request. IsSaid (codes "send") fields.now (said request)) }
{
    Some(Request::Send {
        replica: number_of(fields)?,
    })
}

/// A replica's number, to print it.
fn read_show(fields: &[u8]) -> Option<Request<'_>>
    ensures { MatchOption result ((command : AnyCommand) → ¬ IsSaid (codes "show") fields.now command) (λ request. IsSaid (codes "show") fields.now (said request)) }
{
    Some(Request::Show {
        replica: number_of(fields)?,
    })
}

/// What the fields behind this word ask for; None where they have not the form that the word wants, or the word is no request's.
fn read_fields<'t>(word: &[u8], fields: &'t [u8]) -> Option<Request<'t>>
    ensures { MatchOption result ((command : AnyCommand) → IsDueAt (Some 0) command → ¬ IsSaid word.now fields.now command) (λ request. IsSaid word.now fields.now (said request)) }
{
    if is_word(word, b"update") {
        return read_update(fields);
    }
    if is_word(word, b"deliver") {
        return read_deliver(fields);
    }
    if is_word(word, b"send") {
        return read_send(fields);
    }
    if is_word(word, b"show") {
        return read_show(fields);
    }
    None
}

/// What a line behind the first asks for; None where it has no such line's form.
pub(crate) fn read_request(line: &[u8]) -> Option<Request<'_>>
    ensures { MatchOption result ((n : ℕ) (command : AnyCommand) → ¬ IsLineOf (Some n) line.now command) (λ request. (n : ℕ) → IsLineOf (Some n) line.now (said request)) }
{
    let fields = cut_at(b' ', line)?;
    read_fields(fields.front, fields.back)
}
