//! Which end of a command a refusal of a layer is, so that a stage passes it on by `?`.

ghost use Rattle.std.specs.Prelude.{◌≡◌};

use crate::{End, SourceFault};
use px_descent::NoDescent;
use px_lexer::LexEnd;
use px_parser::ParseEnd;
use px_replay::FeedEnd;
use px_schedule::ScheduleEnd;
use px_scope::ScopeEnd;
use px_terms::NoMemory;
use px_types::TypeEnd;
use px_world::WriteFault;
use std::alloc::AllocError;

impl From<NoMemory> for End {
    ghost use Rattle.px_drive.specs.declared.outcome.End.TheVariants.{NoMemory};

    ghost from_gives = { λ _ end. end ≡ NoMemory };

    fn from(_refusal: NoMemory) -> End {
        End::NoMemory
    }
}

impl From<AllocError> for End {
    ghost use Rattle.px_drive.specs.declared.outcome.End.TheVariants.{NoMemory};

    ghost from_gives = { λ _ end. end ≡ NoMemory };

    fn from(_refusal: AllocError) -> End {
        End::NoMemory
    }
}

impl From<WriteFault> for End {
    ghost use Rattle.px_drive.specs.declared.outcome.End.TheVariants.{WriteFault};

    ghost from_gives = { λ _ end. end ≡ WriteFault };

    fn from(_refusal: WriteFault) -> End {
        End::WriteFault
    }
}

impl From<LexEnd> for End {
    ghost use Rattle.px_drive.specs.Refusals.{end_of_lexing};

    ghost from_gives = { λ refusal end. end ≡ end_of_lexing refusal };

    fn from(refusal: LexEnd) -> End {
        match refusal {
            LexEnd::Fault { at } => End::Source(SourceFault::Lex { at }),
            LexEnd::NoMemory => End::NoMemory,
        }
    }
}

impl From<ParseEnd> for End {
    ghost use Rattle.px_drive.specs.Refusals.{end_of_parsing};

    ghost from_gives = { λ refusal end. end ≡ end_of_parsing refusal };

    fn from(refusal: ParseEnd) -> End {
        match refusal {
            ParseEnd::Fault { at } => End::Source(SourceFault::Parse { at }),
            ParseEnd::NoMemory => End::NoMemory,
        }
    }
}

impl From<ScopeEnd> for End {
    ghost use Rattle.px_drive.specs.Refusals.{end_of_scoping};

    ghost from_gives = { λ refusal end. end ≡ end_of_scoping refusal };

    fn from(refusal: ScopeEnd) -> End {
        match refusal {
            ScopeEnd::Fault { kind, at } => End::Source(SourceFault::Scope { kind, at }),
            ScopeEnd::NoMemory => End::NoMemory,
        }
    }
}

impl From<TypeEnd> for End {
    ghost use Rattle.px_drive.specs.Refusals.{end_of_typing};

    ghost from_gives = { λ refusal end. end ≡ end_of_typing refusal };

    fn from(refusal: TypeEnd) -> End {
        match refusal {
            TypeEnd::Fault { kind, at } => End::Source(SourceFault::Typing { kind, at }),
            TypeEnd::NoMemory => End::NoMemory,
        }
    }
}

impl From<NoDescent> for End {
    ghost use Rattle.px_drive.specs.Refusals.{end_of_descent};

    ghost from_gives = { λ refusal end. end ≡ end_of_descent refusal };

    fn from(refusal: NoDescent) -> End {
        End::Source(SourceFault::Descent {
            def: refusal.def,
            call: refusal.call,
        })
    }
}

impl From<FeedEnd> for End {
    ghost use Rattle.px_drive.specs.Refusals.{end_of_feeding};

    ghost from_gives = { λ refusal end. end ≡ end_of_feeding refusal };

    fn from(refusal: FeedEnd) -> End {
        match refusal {
            FeedEnd::Rejected { line, why } => End::Rejected { line, why },
            FeedEnd::NoMemory => End::NoMemory,
        }
    }
}

impl From<ScheduleEnd> for End {
    ghost use Rattle.px_drive.specs.Refusals.{end_of_schedule};

    ghost from_gives = { λ refusal end. end ≡ end_of_schedule refusal };

    fn from(refusal: ScheduleEnd) -> End {
        match refusal {
            ScheduleEnd::Fault { line, kind } => End::Schedule { line, kind },
            ScheduleEnd::NoMemory => End::NoMemory,
        }
    }
}
