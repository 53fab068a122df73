ghost use Rattle.std.specs.Prelude.{◌≡◌, ◌<◌};

use crate::faults::fault;
use crate::{Failed, Sink};
use px_base::NoMemory;
use std::alloc::Global;

/// A sink in memory that tells its bytes. A write takes at most `piece` bytes. The writes whose numbers
/// were listed fail.
#[derive(Drop)]
pub struct MemorySink {
    bytes: Vec<u8>,
    fails: Vec<u64>,
    calls: u64,
    faults: u64,
    piece: usize,
    ghost some: { 0 < piece },
}

impl MemorySink {
    ghost use Rattle.std.specs.Prelude.{IfOk};
    ghost use Rattle.px_world.specs.MemorySink.{collected, StartsWithNoBytes};

    /// A sink with no bytes, no writes made and no faults. The writes that `fails` lists will fail; they
    /// are numbered from 0, and the number stops at 2^64-1. Each write takes at most `piece` bytes,
    /// which must be at least 1.
    pub fn new(alloc: Global, fails: &[u64], piece: usize) -> Result<MemorySink, NoMemory>
        requires { 0 < piece }
        ensures { IfOk result (StartsWithNoBytes fails.now piece) }
    {
        let fails = Vec::from_slice(alloc, fails)?;
        Ok(MemorySink {
            bytes: Vec::new(alloc),
            fails,
            calls: 0,
            faults: 0,
            piece,
        })
    }

    /// All the bytes that were written.
    pub fn written(&self) -> &[u8]
        ensures { result.now ≡ collected self.now }
    {
        self.bytes.as_slice()
    }
}

impl Sink for MemorySink {
    ghost use Rattle.std.specs.Prelude.{if◌then◌else◌, min, length, Some, IsTrue, IsErr, OnOk, IfOk, is_ok};
    ghost use Rattle.std.specs.Io.{WritesAtMost};
    ghost use Rattle.std.specs.Io.KnownBytes.{WriteAppends};
    ghost use Rattle.px_world.specs.Faults.{HasCause, next_count, is_listed};
    ghost use Rattle.px_world.specs.MemorySink.{collected, failing_writes, write_number, write_faults, largest_write, KeepsWriteSettings};

    ghost written = { λ sink. Some (collected sink) };

    ghost faults = { write_faults };

    /// As for all sinks. A write that is listed fails, and any other may fail for want of memory; only a
    /// write that fails raises the count of faults. Else it takes the whole piece, or its first bytes up
    /// to the largest write.
    fn write(&mut self, bytes: &[u8]) -> Result<usize, Failed>
        ensures bound { WritesAtMost result bytes.now }
        ensures some { IfOk result (λ count. 0 < length bytes.now → 0 < count) }
        ensures bytes { WriteAppends (Some (collected self.old)) (Some (collected self.new)) result bytes.now }
        ensures cause { HasCause (write_faults self.old) (write_faults self.new) result }

        ensures fails { IsTrue (is_listed (failing_writes self.old) (write_number self.old)) → IsErr result }
        ensures piece { IfOk result (λ count. count ≡ min (largest_write self.old) (length bytes.now)) }
        ensures calls { write_number self.new ≡ next_count (write_number self.old) }
        ensures counts { write_faults self.new
            ≡ (if is_ok result then write_faults self.old else next_count (write_faults self.old)) }
        ensures settings { KeepsWriteSettings self.old self.new }
    {
        let call = self.calls;
        self.calls = call.saturating_add(1);
        if self.fails.contains(&call) {
            return Err(fault(&mut self.faults));
        }
        let count = bytes.len().min(self.piece);
        if self.bytes.extend_from_slice(&bytes[..count]).is_err() {
            return Err(fault(&mut self.faults));
        }
        Ok(count)
    }
}
