//! Laws of programs: what is found of a written program is exactly what the rules say.
ghost use Rattle.px_types.specs.ProgramLaws.{ProgramsAreFound, ProgramsBreakAsFound, OneProgram, OneFirstFault, NeverTypedAndBroken, AlwaysJudged};

/// A written program is found exactly as the rules say.
pub fn programs_are_found()
    ensures { ProgramsAreFound }
{}

/// A written program has exactly the first broken rule that is found.
pub fn programs_break_as_found()
    ensures { ProgramsBreakAsFound }
{}

/// A written program is at most one program.
pub fn one_program()
    ensures { OneProgram }
{}

/// A written program has at most one first fault.
pub fn one_first_fault()
    ensures { OneFirstFault }
{}

/// No written program is typed and has a fault.
pub fn never_typed_and_broken()
    ensures { NeverTypedAndBroken }
{}

/// Each written program is typed or has a fault.
pub fn always_judged()
    ensures { AlwaysJudged }
{}
