//! The pattern variables around a term, and what a term is to the parameters.

ghost use Rattle.std.specs.Prelude.{◌≡◌, ℕ, ◌++◌, get_or, replicate};
ghost use Rattle.px_terms.specs.declared.program.Program.{Program as AnyProgram};
ghost use Rattle.px_terms.specs.Descent.{elsewhere, under, walk, field_count as fields_of};
ghost use Rattle.px_descent.specs.Around.{standing_of, bound_of};

use crate::standing::Standing;
use px_terms::{Program, Term};
use sqlite_items::at;

/// The pattern variables around a term: in the body itself there are none; in an arm those of its pattern, which are all
/// the same to the parameters, and then those around the match. They stand on the stack, so that a walk takes no memory.
#[derive(Clone, Copy)]
pub(crate) enum Around<'a> {
    Body,
    Arm {
        fields: usize,
        stands: Standing,
        outer: &'a Around<'a>,
    },
}

/// A match whose arms are walked: its datatype, what the term that it is on is, and what is around it.
#[derive(Clone, Copy)]
pub(crate) struct Matched<'a> {
    pub(crate) datatype: u32,
    pub(crate) on: Standing,
    pub(crate) around: &'a Around<'a>,
}

/// What the pattern variable of this number is, counted from the inside.
fn variable(around: &Around, number: usize) -> Standing
    ensures { standing_of result ≡ get_or (bound_of around.now) number elsewhere }
{
    match around {
        Around::Body => Standing::Elsewhere,
        Around::Arm {
            fields,
            stands,
            outer,
        } => {
            if number < *fields {
                *stands
            } else {
                variable(outer, number - *fields)
            }
        }
    }
}

/// What the term is to the parameters.
pub(crate) fn standing(t: &Term, around: &Around) -> Standing
    ensures { (P : AnyProgram) (n : ℕ) → standing_of result ≡ (walk P n t.now (bound_of around.now)).stands }
{
    match t {
        Term::Free(position) => Standing::Itself(*position),
        Term::Bound(number) => variable(around, *number as usize),
        _ => Standing::Elsewhere,
    }
}

/// How many fields the constructor of this number has; 0 where there is none.
fn field_count(program: &Program, datatype: u32, con: usize) -> usize
    ensures { result ≡ fields_of program.now datatype con }
{
    let Some(data) = at(program.datatypes.as_slice(), datatype as usize) else {
        return 0;
    };
    let Some(constructor) = at(data.cons.as_slice(), con) else {
        return 0;
    };
    constructor.fields.len()
}

/// The pattern variables around what stands in the arm of this number.
pub(crate) fn arm_of<'a>(program: &Program, matched: &Matched<'a>, con: usize) -> Around<'a>
    ensures { bound_of result ≡ replicate (fields_of program.now matched.now.datatype con) (under (standing_of matched.now.on)) ++ bound_of matched.now.around.now }
{
    Around::Arm {
        fields: field_count(program, matched.datatype, con),
        stands: matched.on.under(),
        outer: matched.around,
    }
}
