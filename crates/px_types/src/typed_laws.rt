//! Laws of typing: the program that a written one is, is typed, and its parts can be numbered.
ghost use Rattle.px_types.specs.ProgramLaws.{ProgramsAreTyped, ProgramsHaveNumbers};

/// The program that a written one is, is typed.
pub fn programs_are_typed()
    ensures { ProgramsAreTyped }
{}

/// The obligations, variables and constructors of the program that a written one is can be numbered.
pub fn programs_have_numbers()
    ensures { ProgramsHaveNumbers }
{}
