use px_base::NoMemory;
use px_derive::LineEnd;
use px_lexer::LexEnd;
use px_parser::ParseEnd;
use px_scope::ScopeEnd;
use px_world::{ReadEnd, WriteFault};
use std::alloc::AllocError;

/// Why no more is printed.
#[derive(Clone, Copy, Debug, PartialEq, Eq)]
pub(crate) enum Stop {
    /// A text is no program's.
    Source,
    /// A line is no row's, or is not in a tree.
    Line,
    /// A file or the output failed, or a text is too long.
    Device,
    /// No memory was left.
    NoMemory,
}

impl From<LexEnd> for Stop {
    fn from(_end: LexEnd) -> Stop {
        Stop::Source
    }
}

impl From<ParseEnd> for Stop {
    fn from(_end: ParseEnd) -> Stop {
        Stop::Source
    }
}

impl From<ScopeEnd> for Stop {
    fn from(_end: ScopeEnd) -> Stop {
        Stop::Source
    }
}

impl From<LineEnd> for Stop {
    fn from(_end: LineEnd) -> Stop {
        Stop::Line
    }
}

impl From<ReadEnd> for Stop {
    fn from(_end: ReadEnd) -> Stop {
        Stop::Device
    }
}

impl From<WriteFault> for Stop {
    fn from(_fault: WriteFault) -> Stop {
        Stop::Device
    }
}

impl From<NoMemory> for Stop {
    fn from(_none: NoMemory) -> Stop {
        Stop::NoMemory
    }
}

impl From<AllocError> for Stop {
    fn from(_error: AllocError) -> Stop {
        Stop::NoMemory
    }
}
