ghost use Rattle.std.specs.Prelude.{◌≤◌, length};
ghost use Rattle.px_derive.specs.Lines.{IsPiece};

use memchr::memchr;

/// What stands at a place of a text.
#[derive(Clone, Copy, Debug, PartialEq, Eq)]
pub enum Piece {
    /// A line from `start` up to the line feed at `end`; `next` is the place after that.
    Line {
        start: usize,
        end: usize,
        next: usize,
    },
    /// Bytes, but no line feed.
    Partial,
    /// Nothing.
    End,
}

/// The line that begins at a place: `End` exactly where the place is the text's length, `Partial` exactly where bytes but
/// no line feed follow. It takes no memory.
pub fn next_line(text: &[u8], at: usize) -> Piece
    requires { at ≤ length text.now }
    ensures { IsPiece text.now at result }
{
    let rest = &text[at..];
    match memchr(b'\n', rest) {
        Some(len) => Piece::Line {
            start: at,
            end: at + len,
            next: at + len + 1,
        },
        None if rest.is_empty() => Piece::End,
        None => Piece::Partial,
    }
}
