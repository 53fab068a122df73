//! The name of a token.
ghost use Rattle.std.specs.Prelude.{◌≡◌, IsTrue, IfOk, IfErr, slice_range};
ghost use Rattle.px_parser.specs.Kinds.{is_name};
ghost use Rattle.px_parser.specs.Readable.{is_readable};

use crate::phrase_end::PhraseEnd;
use crate::surface::Name;
use px_base::Text;
use px_lexer::Token;
use std::alloc::Global;
use std::str;

/// The token's text as a name.
pub(crate) fn name_of(alloc: Global, text: &[u8], token: Token) -> Result<Name, PhraseEnd>
    requires readable { IsTrue (is_readable text.now token) }
    requires name { IsTrue (is_name token.kind) }
    ensures name { IfOk result (λ name. name ≡ record { at = token.start; text = slice_range text.now token.start token.end }) }
    ensures end { IfErr result (λ end. end ≡ PhraseEnd.NoMemory) }
{
    let bytes = &text[token.start as usize..token.end as usize];
    let name = str::from_utf8(bytes).unwrap();
    Ok(Name {
        at: token.start,
        text: Text::new(String::from_str(alloc, name)?),
    })
}
