//! Bytes of a class in a row.
ghost use Rattle.std.specs.Prelude.{◌≡◌, ◌≤◌, length};
ghost use Rattle.std.specs.List.{prefix_len};
ghost use Rattle.px_schedule.specs.Runs.{is_in};

/// A class of bytes that stand in a row.
#[derive(Clone, Copy)]
pub(crate) enum Class {
    /// Spaces.
    Space,
    /// Digits.
    Digit,
    /// Letters, digits and `_`.
    NamePart,
}

/// Whether the byte is of the class.
fn is_in(class: Class, byte: u8) -> bool
    ensures { result ≡ is_in class byte }
{
    match class {
        Class::Space => byte == b' ',
        Class::Digit => byte.is_ascii_digit(),
        Class::NamePart => byte.is_ascii_alphanumeric() || byte == b'_',
    }
}

/// How many bytes of the class stand at the front.
pub(crate) fn run(class: Class, bytes: &[u8]) -> usize
    ensures long { result ≡ prefix_len (is_in class) bytes.now }
    ensures within { result ≤ length bytes.now }
{
    for at in 0..bytes.len() {
        if !is_in(class, bytes[at]) {
            return at;
        }
    }
    bytes.len()
}
