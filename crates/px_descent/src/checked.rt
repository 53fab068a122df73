ghost use Rattle.std.specs.Prelude.{◌≡◌, IsOk, IfOk, IfErr, OnOk};
ghost use Rattle.px_base.specs.Lawful.{IsLawful};
ghost use Rattle.px_terms.specs.TypedPrograms.{IsTyped};
ghost use Rattle.px_terms.specs.Descent.{AllDescend};
ghost use Rattle.px_terms.specs.Numbered.{HasNumbers};
ghost use Rattle.px_terms.specs.declared.program.Program.{Program as AnyProgram};
ghost use Rattle.px_descent.specs.Checked.{ExtensionsHaveValues};
ghost use Rattle.px_descent.specs.Ends.{NamesFirst};

use crate::descent::check_descent;
use crate::end::NoDescent;
use px_terms::Program;
use px_totality::{each_call_has_value, each_function_has_value, each_term_has_value};
use std::marker::Model;

/// A program that is typed and descends, whose names are lawful and whose numbers fit. So in every extension of it each call
/// and each typed term has exactly one value with one count. Contracts see it as the program; whoever holds one knows all
/// that of it.
#[derive(Drop)]
pub struct Checked {
    program: Program,
}

impl Model for Checked {
    ghost use Rattle.px_terms.specs.declared.program.Program.{Program as AnyProgram};
    ghost use Rattle.px_terms.specs.contracts.program.Program as contracts;
    ghost use Rattle.px_descent.specs.Checked.{IsChecked};

    ghost Value = { AnyProgram };

    ghost coded = { contracts.the_row.coded };

    ghost view = { λ c. c.program };

    ghost invariant = { λ c. IsChecked c.program };
}

/// In every extension of a program each call and each typed term has exactly one value with one count.
fn extensions_have_values()
    ensures { (P : AnyProgram) → ExtensionsHaveValues P }
{
    each_call_has_value();
    each_function_has_value();
    each_term_has_value();
}

impl Checked {
    ghost use Rattle.px_descent.specs.Checked.{IsChecked};

    /// Checks that every definition of a typed program descends. It takes no memory; a program that is refused is let go.
    pub fn new(program: Program) -> Result<Checked, NoDescent>
        requires typed { IsTyped program }
        requires lawful { IsLawful program.names }
        requires numbered { HasNumbers program }
        ensures same { IfOk result (λ checked. checked ≡ program) }
        ensures descends { OnOk result (AllDescend program) }
        ensures first { IfErr result (NamesFirst program) }
        ensures only { AllDescend program → IsOk result }
    {
        extensions_have_values();
        check_descent(&program)?;
        Ok(Checked { program })
    }

    /// The program. It takes no memory.
    pub fn program(&self) -> &Program
        ensures same { result.now ≡ self.now }
        ensures checked { IsChecked self.now }
    {
        &self.program
    }
}
