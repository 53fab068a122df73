ghost use Rattle.std.specs.Prelude.{◌≤◌, length};

use crate::name_texts::{FAULTS, LAWFUL};
use crate::{ScopeEnd, ScopeKind, resolve};
use px_base::limits::PROGRAM_BYTES;
use px_lexer::tokens;
use px_parser::parse;
use std::alloc::{AllocError, Global};
use std::test::Fail;

/// The fault of scope of a program's text, or `None` where no name breaks a rule. An error where the text is no program.
fn fault_of(alloc: Global, text: &[u8]) -> Result<Option<(ScopeKind, u32)>, AllocError>
    requires { length text.now ≤ PROGRAM_BYTES }
{
    let Ok(found) = tokens(alloc, text) else {
        return Err(AllocError);
    };
    let Ok(surface) = parse(alloc, found.as_slice(), text) else {
        return Err(AllocError);
    };
    match resolve(alloc, &surface) {
        Ok(_) => Ok(None),
        Err(ScopeEnd::Fault { kind, at }) => Ok(Some((kind, at))),
        Err(ScopeEnd::NoMemory) => Err(AllocError),
    }
}

#[test]
fn the_first_name_that_breaks_a_rule_is_answered(rt: HostRuntime) -> Result<(), Fail> {
    for (text, kind, at) in FAULTS {
        assert!(rt; text.len() <= PROGRAM_BYTES);
        let fault = fault_of(rt.alloc(), text)?;
        assert_eq!(rt; fault, Some((kind, at)));
    }
    Ok(())
}

#[test]
fn lawful_names_are_taken(rt: HostRuntime) -> Result<(), Fail> {
    for text in LAWFUL {
        assert!(rt; text.len() <= PROGRAM_BYTES);
        let fault = fault_of(rt.alloc(), text)?;
        assert_eq!(rt; fault, None);
    }
    Ok(())
}
