//! What digits spell.
ghost use Rattle.std.specs.Prelude.{◌≡◌, ◌<◌, ◌≤◌, ◌^◌, All, IsTrue, MatchOption};
ghost use Rattle.std.specs.Char.{is_ascii_digit};
ghost use Rattle.std.specs.Str.Parse.{digits_value};

/// What the digits add up to, or nothing where it is above 2^64 - 1.
pub(crate) fn value_of(digits: &[u8]) -> Option<u64>
    requires { All (λ digit. IsTrue (is_ascii_digit digit)) digits.now }
    ensures { MatchOption result (2 ^ 64 ≤ digits_value 10 digits.now) (λ number. (number ≡ digits_value 10 digits.now) × (number < 2 ^ 64)) }
{
    let mut number: u64 = 0;
    for digit in digits {
        number = number
            .checked_mul(10)?
            .checked_add(u64::from(*digit - b'0'))?;
    }
    Some(number)
}
