ghost use Rattle.std.specs.Prelude.{◌↔◌, IsTrue};
ghost use Rattle.px_terms.specs.Guards.{IsConSubterm, IsInField};

use crate::sameness::same_term;
use crate::term::Term;

/// Whether the part is the whole, or stands in it below constructor fields alone. It takes no memory; its calls nest as
/// deep as the whole.
pub fn is_con_subterm(part: &Term, whole: &Term) -> bool
    ensures { IsTrue result ↔ IsConSubterm part.now whole.now }
{
    holds(whole, part)
}

/// Whether the whole is the part, or holds it below constructor fields alone.
#[cycle(holds)]
fn holds(whole: &Term, part: &Term) -> bool
    ensures { IsTrue result ↔ IsConSubterm part.now whole.now }
{
    if same_term(part, whole) {
        return true;
    }
    match whole {
        Term::Con { fields, .. } => is_in_field(fields.as_slice(), part),
        _ => false,
    }
}

/// Whether the part is one of the fields, or stands in one below constructor fields alone.
#[cycle(holds)]
fn is_in_field(fields: &[Term], part: &Term) -> bool
    ensures { IsTrue result ↔ IsInField part.now fields.now }
{
    for field in fields {
        if holds(field, part) {
            return true;
        }
    }
    false
}
