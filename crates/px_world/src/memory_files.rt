ghost use Rattle.std.specs.Prelude.{◌≡◌, ◌<◌, length};
ghost use Rattle.std.specs.Option.{ForSome};

use crate::faults::fault;
use crate::texts::{NamedText, copy_piece, newest_of, rest_of};
use crate::{Bytes, Failed, Files};
use px_base::{NoMemory, Text};
use std::alloc::Global;

/// Where the next read of an open text begins: which text it is, and how many of its bytes were given.
#[derive(Clone, Copy, Drop)]
struct Place {
    text: usize,
    at: usize,
}

/// Texts in memory. Every name may be opened, and they tell the bytes of each name that was added. A
/// read gives at most `piece` bytes. The calls whose numbers were listed fail, and so does the opening
/// of a name that isn't there; no other call fails.
#[derive(Drop)]
pub struct MemoryFiles {
    alloc: Global,
    texts: Vec<NamedText>,
    opened: Option<Place>,
    fails: Vec<u64>,
    calls: u64,
    faults: u64,
    piece: usize,
    ghost some: { 0 < piece },
    ghost placed: { ForSome opened (λ place. place.text < length texts.items) },
}

impl MemoryFiles {
    ghost use Rattle.std.specs.Prelude.{◌≢◌, List, ℕ, Some, IfOk, OnOk, OnErr};
    ghost use Rattle.px_world.specs.MemoryFiles.{bytes_by_name, left, StartsWithNone, KeepsCalls};

    /// Files with no texts, none open, no calls made and no faults. The calls of `open_text` and `read`
    /// that `fails` lists will fail; they are numbered together from 0, and the number stops at 2^64-1.
    /// Each read gives at most `piece` bytes, which must be at least 1.
    pub fn new(alloc: Global, fails: &[u64], piece: usize) -> Result<MemoryFiles, NoMemory>
        requires { 0 < piece }
        ensures { IfOk result (StartsWithNone fails.now piece) }
    {
        let fails = Vec::from_slice(alloc, fails)?;
        Ok(MemoryFiles {
            alloc,
            texts: Vec::new(alloc),
            opened: None,
            fails,
            calls: 0,
            faults: 0,
            piece,
        })
    }

    /// Gives a name these bytes, in place of those that it had. Every other name stays as it was, and so
    /// do the open text and what is still to be read of it. Without memory nothing changes.
    pub fn add(&mut self, name: &str, bytes: &[u8]) -> Result<(), NoMemory>
        ensures named { OnOk result (bytes_by_name self.new name.now ≡ Some bytes.now) }
        ensures others { (other : List ℕ) → other ≢ name.now
            → bytes_by_name self.new other ≡ bytes_by_name self.old other }
        ensures err { OnErr result (bytes_by_name self.new ≡ bytes_by_name self.old) }
        ensures place { left self.new ≡ left self.old }
        ensures calls { KeepsCalls self.old self.new }
    {
        let name = Text::new(String::from_str(self.alloc, name)?);
        let bytes = Bytes::from_slice(self.alloc, bytes)?;
        self.texts.push(NamedText { name, bytes })?;
        Ok(())
    }
}

impl Files for MemoryFiles {
    ghost use Rattle.std.specs.Prelude.{true, not, ◌&&◌, if◌then◌else◌, min, IsTrue, OnOk, IfOk, IfSome, is_ok, is_some};
    ghost use Rattle.std.specs.Io.{ReadsAtMost};
    ghost use Rattle.std.specs.Io.KnownBytes.{ReadConsumes};
    ghost use Rattle.px_world.specs.Faults.{HasCause, next_count, is_listed};
    ghost use Rattle.px_world.specs.MemoryFiles.{bytes_by_name, left, failing_calls, call_number, fault_count, largest_read, KeepsSettings};

    ghost bytes_of = { bytes_by_name };

    ghost may_open = { λ _ _. true };

    ghost is_open = { λ files. is_some (left files) };

    ghost rest = { left };

    ghost faults = { fault_count };

    /// As for all files. It fails exactly where this call is listed or the name isn't there, and only
    /// then does the count of faults rise.
    fn open_text(&mut self, name: &str) -> Result<(), Failed>
        ensures texts { bytes_by_name self.new ≡ bytes_by_name self.old }
        ensures opened { is_some (left self.new) ≡ is_ok result }
        ensures whole { OnOk result (left self.new ≡ bytes_by_name self.old name.now) }
        ensures cause { HasCause (fault_count self.old) (fault_count self.new) result }

        ensures fails { is_ok result ≡ (not (is_listed (failing_calls self.old) (call_number self.old))
            && is_some (bytes_by_name self.old name.now)) }
        ensures calls { call_number self.new ≡ next_count (call_number self.old) }
        ensures counts { fault_count self.new
            ≡ (if is_ok result then fault_count self.old else next_count (fault_count self.old)) }
        ensures settings { KeepsSettings self.old self.new }
    {
        let call = self.calls;
        self.calls = call.saturating_add(1);
        self.opened = None;
        if self.fails.contains(&call) {
            return Err(fault(&mut self.faults));
        }
        match newest_of(&self.texts, name) {
            Some(text) => {
                self.opened = Some(Place { text, at: 0 });
                Ok(())
            }
            None => Err(fault(&mut self.faults)),
        }
    }

    /// As for all files. It fails exactly where this call is listed, and only then does the count of
    /// faults rise. Else it gives as many bytes as the piece, the buffer and the text allow.
    fn read(&mut self, buf: &mut [u8]) -> Result<usize, Failed>
        requires { IsTrue (is_some (left self.old)) }
        ensures texts { bytes_by_name self.new ≡ bytes_by_name self.old }
        ensures opened { IsTrue (is_some (left self.new)) }
        ensures bound { ReadsAtMost result buf.new }
        ensures bytes { ReadConsumes (left self.old) (left self.new) result buf.new }
        ensures cause { HasCause (fault_count self.old) (fault_count self.new) result }

        ensures fails { is_ok result ≡ not (is_listed (failing_calls self.old) (call_number self.old)) }
        ensures piece { IfOk result (λ count. IfSome (left self.old)
            (λ rest. count ≡ min (largest_read self.old) (min (length buf.old) (length rest)))) }
        ensures calls { call_number self.new ≡ next_count (call_number self.old) }
        ensures counts { fault_count self.new
            ≡ (if is_ok result then fault_count self.old else next_count (fault_count self.old)) }
        ensures settings { KeepsSettings self.old self.new }
    {
        let call = self.calls;
        self.calls = call.saturating_add(1);
        if self.fails.contains(&call) {
            return Err(fault(&mut self.faults));
        }
        let Some(place) = self.opened else {
            unreachable!()
        };
        let rest = rest_of(&self.texts, place.text, place.at);
        let count = copy_piece(rest, buf, self.piece);
        self.opened = Some(Place {
            text: place.text,
            at: place.at + count,
        });
        Ok(count)
    }
}
