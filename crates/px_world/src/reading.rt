ghost use Rattle.std.specs.Prelude.{◌≡◌, ℕ, ◌≤◌, List, IsTrue};
ghost use Rattle.std.specs.Io.KnownBytes.{Consumes};
ghost use Rattle.px_world.specs.Faults.{Rose};
ghost use Rattle.px_world.specs.Reads.{Reads, CameBy, EndsOpen};

use crate::{Bytes, Files, ReadEnd};
use std::alloc::Global;

/// How many bytes are asked for at a time.
const PIECE: usize = 4096;

/// Reads a whole text, of at most `limit` bytes. The name must be one that may be opened.
///
/// - `Ok` has all the bytes of the text, where the files tell them.
/// - `ReadFault` comes only where the files' count of faults rose.
/// - `TooLong` comes where more than `limit` bytes came before an end or a fault; reading stops there.
///
/// After each answer the files stand as their own calls left them: which bytes a name has and which
/// names may be opened is unchanged.
pub fn read_all<F: Files>(
    alloc: Global,
    files: &mut F,
    name: &str,
    limit: usize,
) -> Result<Bytes, ReadEnd>
    requires { IsTrue (F.may_open files.old name.now) }
    ensures reads { Reads (F.bytes_of files.old name.now) limit result }
    ensures fault { result ≡ Err ReadEnd.ReadFault → Rose (F.faults files.old) (F.faults files.new) }

    // What came before an end, a fault or one byte too many.
    ensures opened { EndsOpen result (F.is_open files.new) }
    ensures came { IsTrue (F.is_open files.new) → (came : List ℕ)
        × Consumes (F.bytes_of files.old name.now) (F.rest files.new) came × CameBy limit result came }

    ensures texts { F.bytes_of files.new ≡ F.bytes_of files.old }
    ensures names { F.may_open files.new ≡ F.may_open files.old }
    ensures later { F.faults files.old ≤ F.faults files.new }
{
    if files.open_text(name).is_err() {
        return Err(ReadEnd::ReadFault);
    }
    let mut bytes = Bytes::new(alloc);
    let mut piece = [0; PIECE];
    loop {
        let Ok(count) = files.read(&mut piece) else {
            return Err(ReadEnd::ReadFault);
        };
        if count == 0 {
            return Ok(bytes);
        }
        if count > limit - bytes.len() {
            return Err(ReadEnd::TooLong);
        }
        bytes.extend_from_slice(&piece[..count])?;
    }
}
