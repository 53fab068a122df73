//! What digits spell.
ghost use Rattle.std.specs.Prelude.{◌≡◌, ◌<◌, ◌≤◌, ◌^◌, All, IsTrue, MatchOption};
ghost use Rattle.std.specs.Char.{is_ascii_digit};
ghost use Rattle.std.specs.Str.Parse.{digits_value};
ghost use Rattle.px_derive.specs.Readers.{is_numeral, number_of};
ghost use Rattle.px_derive.specs.Reading.{small};

/// Whether the digits are a number's: there is one at least, and no zero before another.
fn is_numeral(digits: &[u8]) -> bool
    ensures { result ≡ is_numeral digits.now }
{
    match digits {
        [] => false,
        [_] => true,
        [first, _, ..] => *first != b'0',
    }
}

/// What the digits add up to, or nothing where it is above 2^64 - 1.
fn value_of(digits: &[u8]) -> Option<u64>
    requires { All (λ digit. IsTrue (is_ascii_digit digit)) digits.now }
    ensures { MatchOption result (2 ^ 64 ≤ digits_value 10 digits.now) (λ number. (number ≡ digits_value 10 digits.now) × (number < 2 ^ 64)) }
{
    let mut number: u64 = 0;
    for digit in digits {
        number = number
            .checked_mul(10)?
            .checked_add(u64::from(*digit - b'0'))?;
    }
    Some(number)
}

/// The number that the digits spell, or nothing where they spell none that is at most 2^64 - 1.
pub(crate) fn number_of(digits: &[u8]) -> Option<u64>
    requires { All (λ digit. IsTrue (is_ascii_digit digit)) digits.now }
    ensures { result ≡ number_of (2 ^ 64) digits.now }
{
    if !is_numeral(digits) {
        return None;
    }
    value_of(digits)
}

/// The number, where it is at most 2^32 - 1.
pub(crate) fn small(number: u64) -> Option<u32>
    ensures { result ≡ small number }
{
    match u32::try_from(number) {
        Ok(number) => Some(number),
        Err(_) => None,
    }
}
