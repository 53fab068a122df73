ghost use Rattle.std.specs.Prelude.{◌≡◌, ℕ, List, Bool, Option, IsTrue, OnOk, is_ok};
ghost use Rattle.std.specs.Io.{ReadsAtMost};
ghost use Rattle.std.specs.Io.KnownBytes.{ReadConsumes};
ghost use Rattle.px_world.specs.Faults.{HasCause};

use crate::Failed;

/// Texts that are read by name, one at a time. No call changes which bytes a name has or which names
/// may be opened, and no call takes memory.
pub trait Files {
    /// The bytes of each name, where the files tell them.
    ghost bytes_of: { Self → List ℕ → Option (List ℕ) };

    /// Whether a name may be opened.
    ghost may_open: { Self → List ℕ → Bool };

    /// Whether a text is open.
    ghost is_open: { Self → Bool };

    /// What is still to be read of the open text, where the files tell it.
    ghost rest: { Self → Option (List ℕ) };

    /// How many calls have failed. It never falls, and stops at 2^64-1.
    ghost faults: { Self → ℕ };

    /// Opens a text at its first byte, in place of the one that was open. The name must be one that may
    /// be opened. It answers `Failed` only where the count of faults rose, and then no text is open.
    fn open_text(&mut self, name: &str) -> Result<(), Failed>
        requires { IsTrue (may_open self.old name.now) }
        ensures texts { bytes_of self.new ≡ bytes_of self.old }
        ensures names { may_open self.new ≡ may_open self.old }
        ensures opened { is_open self.new ≡ is_ok result }
        ensures whole { OnOk result (rest self.new ≡ bytes_of self.old name.now) }
        ensures cause { HasCause (faults self.old) (faults self.new) result };

    /// Puts the next bytes of the open text at the front of the buffer and answers how many: at most its
    /// length, and none only at the text's end or where the buffer is empty. A text must be open, and it
    /// stays open. It answers `Failed` only where the count of faults rose, and then it took nothing.
    fn read(&mut self, buf: &mut [u8]) -> Result<usize, Failed>
        requires { IsTrue (is_open self.old) }
        ensures texts { bytes_of self.new ≡ bytes_of self.old }
        ensures names { may_open self.new ≡ may_open self.old }
        ensures opened { IsTrue (is_open self.new) }
        ensures bound { ReadsAtMost result buf.new }
        ensures bytes { ReadConsumes (rest self.old) (rest self.new) result buf.new }
        ensures cause { HasCause (faults self.old) (faults self.new) result };
}
