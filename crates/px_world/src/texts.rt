ghost use Rattle.std.specs.Prelude.{◌≡◌, ◌<◌, ◌^◌, min, length, take, drop};
ghost use Rattle.px_world.specs.Texts.{IsNewest, bytes_at};

use crate::Bytes;
use px_base::Text;

/// A text and the name that it has.
#[derive(Drop)]
pub(crate) struct NamedText {
    pub(crate) name: Text,
    pub(crate) bytes: Bytes,
}

/// The index of the newest of these texts that has this name.
pub(crate) fn newest_of(texts: &[NamedText], name: &str) -> Option<usize>
    ensures { IsNewest texts.now name.now result }
{
    let mut newest = None;
    for (index, text) in texts.iter().enumerate() {
        if text.name.as_str() == name {
            newest = Some(index);
        }
    }
    newest
}

/// The bytes of the text at this index from one on, or none past its end.
pub(crate) fn rest_of(texts: &[NamedText], index: usize, at: usize) -> &[u8]
    requires { index < length texts.now }
    ensures rest { result.now ≡ drop at (bytes_at texts.now index) }
    ensures fits { length (bytes_at texts.now index) < 2 ^ 64 }
{
    let bytes = texts[index].bytes.as_slice();
    if at < bytes.len() { &bytes[at..] } else { &[] }
}

/// Puts at most `piece` bytes from the front of `rest` at the front of the buffer, and says how many.
pub(crate) fn copy_piece(rest: &[u8], buf: &mut [u8], piece: usize) -> usize
    ensures count { result ≡ min piece (min (length buf.old) (length rest.now)) }
    ensures front { take result buf.new ≡ take result rest.now }
{
    let count = piece.min(buf.len()).min(rest.len());
    buf[..count].copy_from_slice(&rest[..count]);
    count
}
