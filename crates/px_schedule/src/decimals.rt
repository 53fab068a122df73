//! Numbers that are written in decimal without leading zeros.
ghost use Rattle.std.specs.Prelude.{◌≡◌, ◌≢◌, ◌<◌, ◌^◌, ℕ, MatchOption};
ghost use Rattle.std.specs.Fmt.{decimal};
ghost use Rattle.px_schedule.specs.Fields.{is_numeral};

use crate::numbers::value_of;
use crate::rest::Rest;
use crate::runs::Class;

/// Whether digits are written as a number is: there is one at least, and no zero stands before another.
fn is_numeral(digits: &[u8]) -> bool
    ensures { result ≡ is_numeral digits.now }
{
    match digits {
        [] => false,
        [_] => true,
        [first, _, ..] => *first != b'0',
    }
}

/// The number that the whole word spells; None where it spells none that is at most 2^64 - 1.
pub(crate) fn number_of(word: &[u8]) -> Option<u64>
    ensures { MatchOption result ((n : ℕ) → n < 2 ^ 64 → word.now ≢ decimal n) (λ n. (n < 2 ^ 64) × (word.now ≡ decimal n)) }
{
    let (digits, rest) = Rest { bytes: word }.split_run(Class::Digit);
    if !rest.bytes.is_empty() {
        return None;
    }
    if !is_numeral(digits) {
        return None;
    }
    value_of(digits)
}
