//! The stages of the commands: a text that is read, a program that is made of it, a derivation that is replayed.
ghost use Rattle.std.specs.Prelude.{◌≤◌, ◌≡◌, [], length, IsTrue};
ghost use Rattle.px_terms.specs.limits.TheConstants.{PROGRAM_BYTES as PROGRAM_LIMIT, DERIVATION_BYTES as DERIVATION_LIMIT};
ghost use Rattle.px_replay.specs.Standings.{StandsFor};
ghost use Rattle.px_drive.specs.Feeding.{Feeds};
ghost use Rattle.px_drive.specs.Ends.{limit_of, ReadsText, ReadsSource, Accepts};
ghost use Rattle.px_drive.specs.Seen.{files_seen, KeepsFiles};
ghost use Rattle.px_drive.specs.Sources.{Sources};

use crate::{End, Which};
use px_derive::{Piece, next_line};
use px_descent::Checked;
use px_equations::list_obligations;
use px_lexer::tokens;
use px_parser::parse;
use px_replay::{Replay, Why};
use px_scope::resolve;
use px_terms::Text;
use px_terms::limits::{DERIVATION_BYTES, PROGRAM_BYTES, SCHEDULE_BYTES};
use px_types::check_types;
use px_world::{Bytes, Files, ReadEnd, read_all};
use std::alloc::Global;

/// How many bytes a text may have.
fn limit(text: Which) -> usize
    ensures { result ≡ limit_of text }
{
    match text {
        Which::Program => PROGRAM_BYTES,
        Which::Derivation => DERIVATION_BYTES,
        Which::Schedule => SCHEDULE_BYTES,
    }
}

/// Reads a text whole, within its limit. The name must be one that may be opened.
pub(crate) fn read_text<F: Files>(
    alloc: Global,
    files: &mut F,
    name: &Text,
    text: Which,
) -> Result<Bytes, End>
    requires { IsTrue (F.may_open files.old name.now) }
    ensures reads { ReadsText text (files_seen F.Files files.old files.new) name.now result }
    ensures keeps { KeepsFiles F.Files files.old files.new }
{
    match read_all(alloc, files, name.as_str(), limit(text)) {
        Ok(bytes) => Ok(bytes),
        Err(ReadEnd::ReadFault) => Err(End::ReadFault),
        Err(ReadEnd::TooLong) => Err(End::TooLong { text }),
        Err(ReadEnd::NoMemory) => Err(End::NoMemory),
    }
}

/// Reads the text of a program whole, and finds the program that it is. The name must be one that may be opened.
pub(crate) fn read_program<F: Files>(
    alloc: Global,
    file: &Text,
    files: &mut F,
) -> Result<Checked, End>
    requires { IsTrue (F.may_open files.old file.now) }
    ensures reads { ReadsSource (files_seen F.Files files.old files.new) file.now result }
    ensures keeps { KeepsFiles F.Files files.old files.new }
{
    let text = read_text(alloc, files, file, Which::Program)?;
    let checked = read_source(alloc, &text)?;
    Ok(checked)
}

/// The program of the bytes: their tokens, the tokens' tree, the tree with numbers for names, and the typed program of
/// that, in which each definition descends. A fault where the first of these layers that fails has it.
fn read_source(alloc: Global, bytes: &Bytes) -> Result<Checked, End>
    requires { length bytes.now ≤ PROGRAM_LIMIT }
    ensures { Sources bytes.now result }
{
    let text = bytes.as_slice();
    let found = tokens(alloc, text)?;
    let surface = parse(alloc, found.as_slice(), text)?;
    let raw = resolve(alloc, &surface)?;
    let program = check_types(alloc, raw)?;
    let checked = Checked::new(program)?;
    Ok(checked)
}

/// Replays the derivation of the program in the bytes, line by line, and answers the number of its obligations. The first line
/// with which the lines are no partial derivation any more is refused, or what stands behind the last line feed, and nothing
/// after it is looked at.
pub(crate) fn accept(alloc: Global, checked: &Checked, bytes: &Bytes) -> Result<u32, End>
    requires { length bytes.now ≤ DERIVATION_LIMIT }
    ensures { Accepts checked.now bytes.now result }
{
    let all = list_obligations(alloc, checked)?;
    let mut replay = Replay::new(alloc, &all)?;
    feed_lines(&mut replay, bytes.as_slice())?;
    let accepted = replay.finish()?;
    Ok(accepted.obligations)
}

/// Feeds the text's lines to a replay that was fed nothing yet.
fn feed_lines(replay: &mut Replay, text: &[u8]) -> Result<(), End>
    requires stands { StandsFor replay.old [] }
    requires small { length text.now ≤ DERIVATION_LIMIT }
    ensures { Feeds replay.old.program text.now replay.new result }
{
    let mut at = 0;
    let mut number = 1;
    loop {
        match next_line(text, at) {
            Piece::Line { start, end, next } => {
                replay.feed(&text[start..end])?;
                at = next;
                number += 1;
            }
            Piece::Partial => {
                return Err(End::Rejected {
                    line: number,
                    why: Why::Form,
                });
            }
            Piece::End => return Ok(()),
        }
    }
}
