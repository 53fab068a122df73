//! Numbers as instructions hold them.

ghost use Rattle.std.specs.Prelude.{◌≡◌, IfOk};

use px_base::NoMemory;

/// The number as an instruction holds it. The machine numbers locals, values and places by 32 bits: code that needs more has no
/// place in its memory, so the answer is then NoMemory.
pub(crate) fn number(count: usize) -> Result<u32, NoMemory>
    ensures { IfOk result (λ number. number ≡ count) }
{
    match u32::try_from(count) {
        Ok(number) => Ok(number),
        Err(_) => Err(NoMemory),
    }
}
