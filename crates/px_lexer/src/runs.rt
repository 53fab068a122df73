ghost use Rattle.std.specs.Prelude.{◌≡◌, ◌<◌, ◌≤◌, ◌^◌, length, slice_index, All, IsTrue, MatchOption};
ghost use Rattle.std.specs.Char.{is_ascii_digit};
ghost use Rattle.std.specs.Str.Parse.{digits_value};
ghost use Rattle.px_lexer.specs.Scan.{is_in, IsRun};

/// A class of bytes that stand in a row.
#[derive(Clone, Copy)]
pub(crate) enum Class {
    /// What a name goes on with.
    NamePart,
    /// What a number is made of.
    Digit,
    /// What a comment may hold.
    Line,
}

/// Whether the byte is of the class.
fn is_in(class: Class, byte: u8) -> bool
    ensures { result ≡ is_in class byte }
{
    match class {
        Class::NamePart => byte.is_ascii_alphanumeric() || byte == b'_',
        Class::Digit => byte.is_ascii_digit(),
        Class::Line => byte != b'\n',
    }
}

/// The place after the bytes of the class that come next.
pub(crate) fn run_end(class: Class, text: &[u8], at: usize) -> usize
    requires { at ≤ length text.now }
    ensures { IsRun class text.now at result }
{
    let mut end = at;
    while end < text.len() && is_in(class, text[end]) {
        end += 1;
    }
    end
}

/// The number that the digits spell, or nothing where it is above 2^64 - 1.
pub(crate) fn number_of(digits: &[u8]) -> Option<u64>
    requires { All (λ digit. IsTrue (is_ascii_digit digit)) digits.now }
    ensures { MatchOption result (2 ^ 64 ≤ digits_value 10 digits.now) (λ number. number ≡ digits_value 10 digits.now) }
{
    let mut number: u64 = 0;
    for digit in digits {
        number = number
            .checked_mul(10)?
            .checked_add(u64::from(*digit - b'0'))?;
    }
    Some(number)
}
