//! A program of tokens.
ghost use Rattle.std.specs.Prelude.{◌≡◌, ◌≤◌, ◌<◌, ℕ, List, length, Ok, Err, IfOk, IfErr};
ghost use Rattle.px_lexer.specs.Tokens.{AreTokens};
ghost use Rattle.px_parser.specs.declared.surface.Surface.{Surface};
ghost use Rattle.px_parser.specs.Faults.{IsProgramOf, IsFaultOf, IsEnd, IsUnlessNoMemory, place_of};
ghost use Rattle.px_parser.specs.Sizes.{surface_size, IsWithinNesting};
ghost use Rattle.px_parser.specs.Filled.{IsFilled};
ghost use Rattle.px_parser.specs.Named.{AreNamed};

use crate::declarations::read_items;
use crate::parse_end::ParseEnd;
use crate::phrase_end::PhraseEnd;
use crate::rest::Rest;
use crate::surface::Surface;
use px_base::limits::PROGRAM_BYTES;
use px_lexer::Token;
use std::alloc::Global;

/// The tree of the text's tokens, unless memory runs out. A fault where the tokens are no program: at the first token
/// through which no program begins, nesting included, or at the text's end where only the end is wrong.
pub fn parse(alloc: Global, tokens: &[Token], text: &[u8]) -> Result<Surface, ParseEnd>
    requires small { length text.now ≤ PROGRAM_BYTES }
    requires tokens { AreTokens text.now tokens.now }
    ensures ok { IfOk result (IsProgramOf text.now tokens.now) }
    ensures fault { IfErr result (IsEnd text.now tokens.now) }

    // The tree has no more parts than the text has bytes, its types and expressions nest within the limit, each datatype
    // has a constructor and each lemma an equation, and the names that it declares have the form of their tokens.
    ensures fits { IfOk result (λ tree. surface_size tree ≤ length text.now) }
    ensures nests { IfOk result IsWithinNesting }
    ensures filled { IfOk result IsFilled }
    ensures named { IfOk result AreNamed }

    // Unless memory runs out, the one tree of the tokens is answered, and so is their one fault.
    ensures each_tree { (tree : Surface) → IsProgramOf text.now tokens.now tree → IsUnlessNoMemory (Ok tree) result }
    ensures each_fault { (at : ℕ) → IsFaultOf text.now tokens.now at → IsUnlessNoMemory (Err (ParseEnd.Fault at)) result }
{
    let rest = Rest { text, tokens };
    match read_items(alloc, rest) {
        Ok((items, _)) => Ok(Surface { items }),
        Err(PhraseEnd::NoMemory) => Err(ParseEnd::NoMemory),
        Err(PhraseEnd::Fault { left }) => Err(ParseEnd::Fault {
            at: place(tokens, text, tokens.len() - left),
        }),
    }
}

/// The place of the token of this number, or of the text's end.
fn place(tokens: &[Token], text: &[u8], number: usize) -> u32
    requires { length text.now ≤ PROGRAM_BYTES }
    ensures { result ≡ place_of text.now tokens.now number }
{
    match tokens.get(number) {
        Some(token) => token.start,
        None => text.len() as u32,
    }
}
