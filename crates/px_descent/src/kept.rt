//! The first walk of a body: which positions every self-call keeps.

ghost use Rattle.std.specs.Prelude.{◌↔◌, ℕ, IsTrue, [], ◌∷◌, map};
ghost use Rattle.px_terms.specs.declared.program.Program.{Program as AnyProgram};
ghost use Rattle.px_terms.specs.Descent.{calls_in, Keeps};
ghost use Rattle.px_descent.specs.Around.{bound_of};
ghost use Rattle.px_descent.specs.Kept.{stands_in, own_call, walked, arm_calls, Clears};

use crate::around::{Around, Matched, arm_of, standing};
use crate::calls::own_arguments;
use px_terms::{Program, Term};
use sqlite_items::at;

/// Positions of a definition, from `first` on.
#[derive(Clone, Copy)]
pub(crate) struct Positions<'a> {
    pub(crate) program: &'a Program,
    pub(crate) def: usize,
    pub(crate) first: u32,
}

/// Whether a call with these arguments passes at this position its parameter, or what is below it.
fn keeps(args: &[Term], around: &Around, position: usize) -> bool
    ensures { (P : AnyProgram) (n : ℕ) → IsTrue result ↔ Keeps (stands_in P n args.now (bound_of around.now)) position }
{
    let Some(arg) = at(args, position) else {
        return false;
    };
    standing(arg, around).is_within(position)
}

/// Clears the positions that a call with these arguments does not keep.
fn clear_at_call(first: u32, args: &[Term], around: &Around, kept: &mut [bool])
    ensures { (P : AnyProgram) (n : ℕ) → Clears first (stands_in P n args.now (bound_of around.now) ∷ []) kept.old kept.new }
{
    for (index, is_kept) in kept.iter_mut().enumerate() {
        if !keeps(args, around, first as usize + index) {
            *is_kept = false;
        }
    }
}

/// Clears the positions that the term itself does not keep, where it is a self-call.
fn clear_own(positions: &Positions, t: &Term, around: &Around, kept: &mut [bool])
    ensures { Clears positions.now.first (own_call positions.now.program.now positions.now.def t.now (bound_of around.now)) kept.old kept.new }
{
    if let Some(args) = own_arguments(t, positions.def) {
        clear_at_call(positions.first, args, around, kept);
    }
}

/// Clears the positions that some self-call in the term does not keep. It takes no memory; its calls nest as deep as the
/// term.
#[cycle(clear)]
pub(crate) fn clear_raised(positions: &Positions, t: &Term, around: &Around, kept: &mut [bool])
    ensures { Clears positions.now.first (walked positions.now t.now (bound_of around.now)).calls kept.old kept.new }
{
    clear_own(positions, t, around, kept);
    match t {
        Term::Free(_) | Term::Bound(_) | Term::Lit(_) => {}
        Term::Con { fields, .. } => clear_in_parts(positions, fields.as_slice(), around, kept),
        Term::Call { args, .. } => clear_in_parts(positions, args.as_slice(), around, kept),
        Term::Match {
            on,
            datatype,
            arms,
            ..
        } => {
            clear_raised(positions, on.get(), around, kept);
            let matched = Matched {
                datatype: *datatype,
                on: standing(on.get(), around),
                around: &*around,
            };
            clear_in_arms(positions, arms.as_slice(), &matched, kept);
        }
    }
}

/// Clears the positions that some self-call in the parts does not keep.
#[cycle(clear)]
fn clear_in_parts(positions: &Positions, parts: &[Term], around: &Around, kept: &mut [bool])
    ensures { Clears positions.now.first (calls_in (map (walked positions.now) parts.now) (bound_of around.now)) kept.old kept.new }
{
    for part in parts {
        clear_raised(positions, part, around, kept);
    }
}

/// Clears the positions that some self-call in the arms does not keep.
#[cycle(clear)]
fn clear_in_arms(positions: &Positions, arms: &[Term], matched: &Matched, kept: &mut [bool])
    ensures { Clears positions.now.first (arm_calls positions.now.program.now matched.now (map (walked positions.now) arms.now)) kept.old kept.new }
{
    for (con, arm) in arms.iter().enumerate() {
        let around = arm_of(positions.program, matched, con);
        clear_raised(positions, arm, &around, kept);
    }
}
