//! How many nodes an arm has with the fields of its constructor put in. Nothing is built.

ghost use Rattle.std.specs.Prelude.{◌≡◌, ◌-◌, ◌^◌, ℕ, map, min, sum};
ghost use Rattle.px_terms.specs.Types.{fun_size};
ghost use Rattle.px_terms.specs.Terms.{term_size, terms_size};
ghost use Rattle.px_terms.specs.Steps.{with_fields};
ghost use Rattle.px_rewrite.specs.Opening.{AreAround, opened_in, opened_parts_in, opened_arms_in};

use crate::opening::{Opening, field_for, inside_arm};
use px_terms::{Fun, Program, Term, size, size_of_tys};

/// The nodes of the arm with these fields put in for the pattern variables of its constructor, or 2^64 - 1 where it has more: of
/// what `open_arm` makes of it, which is not made. It takes no memory; its calls nest as deep as the terms.
pub fn size_of_arm(program: &Program, fields: &[Term], arm: &Term) -> u64
    ensures { result ≡ min (term_size (with_fields program.now fields.now arm.now)) (2 ^ 64 - 1) }
{
    let opening = Opening {
        program,
        fields,
        inner: 0,
    };
    size_of_part(arm, &opening)
}

/// The nodes of the functions together: each is one node above its types.
fn size_of_funs(funs: &[Fun]) -> u64
    ensures { result ≡ min (sum (map fun_size funs.now)) (2 ^ 64 - 1) }
{
    let mut total: u64 = 0;
    for fun in funs {
        total = total
            .saturating_add(1)
            .saturating_add(size_of_tys(fun.types.as_slice()));
    }
    total
}

/// The nodes of a part of an arm with the fields put in.
#[cycle(size_of)]
fn size_of_part(t: &Term, opening: &Opening) -> u64
    ensures { (n : ℕ) → AreAround opening.now n → result ≡ min (term_size (opened_in opening.now t.now n)) (2 ^ 64 - 1) }
{
    match t {
        Term::Free(_) | Term::Lit(_) => 1,
        Term::Bound(number) => match field_for(opening, *number) {
            Some(field) => size(field),
            None => 1,
        },
        Term::Con { types, fields, .. } => size_of_tys(types.as_slice())
            .saturating_add(size_of_parts(fields.as_slice(), opening))
            .saturating_add(1),
        Term::Call { fun, funs, args } => size_of_tys(fun.types.as_slice())
            .saturating_add(size_of_funs(funs.as_slice()))
            .saturating_add(size_of_parts(args.as_slice(), opening))
            .saturating_add(1),
        Term::Match {
            on,
            datatype,
            types,
            arms,
        } => size_of_part(on.get(), opening)
            .saturating_add(size_of_tys(types.as_slice()))
            .saturating_add(size_of_arms(*datatype, arms.as_slice(), opening))
            .saturating_add(1),
    }
}

/// The nodes of parts of an arm together, with the fields put in.
#[cycle(size_of)]
fn size_of_parts(parts: &[Term], opening: &Opening) -> u64
    ensures { (n : ℕ) → AreAround opening.now n → result ≡ min (terms_size (opened_parts_in opening.now parts.now n)) (2 ^ 64 - 1) }
{
    let mut total: u64 = 0;
    for part in parts {
        total = total.saturating_add(size_of_part(part, opening));
    }
    total
}

/// The nodes of the arms of an inner match together, with the fields put in.
#[cycle(size_of)]
fn size_of_arms(datatype: u32, arms: &[Term], opening: &Opening) -> u64
    ensures { (n : ℕ) → AreAround opening.now n → result ≡ min (terms_size (opened_arms_in opening.now datatype arms.now n)) (2 ^ 64 - 1) }
{
    let mut total: u64 = 0;
    for (con, arm) in arms.iter().enumerate() {
        let inside = inside_arm(opening, datatype, con);
        total = total.saturating_add(size_of_part(arm, &inside));
    }
    total
}
