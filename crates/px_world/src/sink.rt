ghost use Rattle.std.specs.Prelude.{ℕ, List, Option, IfOk, length, ◌<◌};
ghost use Rattle.std.specs.Io.{WritesAtMost};
ghost use Rattle.std.specs.Io.KnownBytes.{WriteAppends};
ghost use Rattle.px_world.specs.Faults.{HasCause};

use crate::Failed;

/// Where bytes are written to.
pub trait Sink {
    /// All the bytes that were written, where the sink tells them.
    ghost written: { Self → Option (List ℕ) };

    /// How many writes have failed. It never falls, and stops at 2^64-1.
    ghost faults: { Self → ℕ };

    /// Writes the first bytes of these and answers how many: at least one where there is one. It answers
    /// `Failed` only where the count of faults rose, and then it wrote nothing.
    fn write(&mut self, bytes: &[u8]) -> Result<usize, Failed>
        ensures bound { WritesAtMost result bytes.now }
        ensures some { IfOk result (λ count. 0 < length bytes.now → 0 < count) }
        ensures bytes { WriteAppends (written self.old) (written self.new) result bytes.now }
        ensures cause { HasCause (faults self.old) (faults self.new) result };
}
