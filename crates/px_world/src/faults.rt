ghost use Rattle.std.specs.Prelude.{◌≡◌, ◌≤◌};
ghost use Rattle.px_world.specs.Faults.{next_count};
ghost use Rattle.px_world.specs.declared.faults.ReadEnd.TheVariants.{NoMemory as NoMemoryEnd};

use px_base::NoMemory;

/// A call of a device failed. The device has raised its count of faults.
#[derive(Clone, Copy, Debug, PartialEq, Eq)]
pub struct Failed;

/// Counts one more fault, up to the last value of the count, and gives the answer for it.
pub(crate) fn fault(count: &mut u64) -> Failed
    ensures next { count.new ≡ next_count count.old }
    ensures later { count.old ≤ count.new }
{
    *count = count.saturating_add(1);
    Failed
}

/// A write failed, so only a front of the bytes was written. The sink has raised its count of faults.
#[derive(Clone, Copy, Debug, PartialEq, Eq)]
pub struct WriteFault;

/// Why a text was not read whole.
#[derive(Clone, Copy, Debug, PartialEq, Eq)]
pub enum ReadEnd {
    /// Opening or reading it failed. The files have raised their count of faults.
    ReadFault,
    /// More bytes came than the limit allows.
    TooLong,
    /// No memory was left.
    NoMemory,
}

impl From<NoMemory> for ReadEnd {
    ghost from_gives = { λ _ end. end ≡ NoMemoryEnd };

    fn from(_error: NoMemory) -> ReadEnd {
        ReadEnd::NoMemory
    }
}
