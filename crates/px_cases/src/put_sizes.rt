//! How large a term is with a term put in for a variable: of what `put` makes, which is not made. Nothing here takes memory.
ghost use Rattle.std.specs.Prelude.{◌≡◌, ◌-◌, ◌^◌, map, min, sum};
ghost use Rattle.px_terms.specs.Types.{fun_size};
ghost use Rattle.px_terms.specs.Terms.{term_put, term_size, terms_size};

use px_terms::{Fun, Term, size_of_tys};

/// The nodes of the functions together: each is one node above its types. Or 2^64 - 1 where they have more.
fn size_of_funs(funs: &[Fun]) -> u64
    ensures { result ≡ min (sum (map fun_size funs.now)) (2 ^ 64 - 1) }
{
    let mut total: u64 = 0;
    for fun in funs {
        total = total
            .saturating_add(1)
            .saturating_add(size_of_tys(fun.types.as_slice()));
    }
    total
}

/// The nodes of the term with `by`, which has so many nodes, put in for the variable; or 2^64 - 1 where it has more. Its
/// calls nest as deep as the term.
#[cycle(size_of_put)]
pub(crate) fn size_of_put(t: &Term, variable: u32, by: &Term, nodes: u64) -> u64
    requires { nodes ≡ min (term_size by.now) (2 ^ 64 - 1) }
    ensures { result ≡ min (term_size (term_put variable by.now t.now)) (2 ^ 64 - 1) }
{
    match t {
        Term::Free(number) => { if *number == variable { nodes } else { 1 } }
        Term::Bound(_) | Term::Lit(_) => 1,
        Term::Con { types, fields, .. } => size_of_tys(types.as_slice())
            .saturating_add(size_of_puts(fields.as_slice(), variable, by, nodes))
            .saturating_add(1),
        Term::Call { fun, funs, args } => size_of_tys(fun.types.as_slice())
            .saturating_add(size_of_funs(funs.as_slice()))
            .saturating_add(size_of_puts(args.as_slice(), variable, by, nodes))
            .saturating_add(1),
        Term::Match {
            on,
            types,
            arms,
            ..
        } => size_of_put(on.get(), variable, by, nodes)
            .saturating_add(size_of_tys(types.as_slice()))
            .saturating_add(size_of_puts(arms.as_slice(), variable, by, nodes))
            .saturating_add(1),
    }
}

/// The nodes of the terms together, with `by` put in for the variable.
#[cycle(size_of_put)]
fn size_of_puts(terms: &[Term], variable: u32, by: &Term, nodes: u64) -> u64
    requires { nodes ≡ min (term_size by.now) (2 ^ 64 - 1) }
    ensures { result ≡ min (terms_size (map (term_put variable by.now) terms.now)) (2 ^ 64 - 1) }
{
    let mut total: u64 = 0;
    for t in terms {
        total = total.saturating_add(size_of_put(t, variable, by, nodes));
    }
    total
}
