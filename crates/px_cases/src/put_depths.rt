//! How deep a term is with a term put in for a variable: of what `put` makes, which is not made. Nothing here takes memory.
ghost use Rattle.std.specs.Prelude.{◌≡◌, ◌-◌, ◌^◌, map, min};
ghost use Rattle.px_terms.specs.Largest.{largest};
ghost use Rattle.px_terms.specs.Types.{fun_depth};
ghost use Rattle.px_terms.specs.Terms.{term_put, term_depth, terms_depth};

use px_terms::{Fun, Term, depth_of_tys};

/// The depth of the function as an argument: one node above its types.
fn depth_of_fun(fun: &Fun) -> u32
    ensures { result ≡ min (fun_depth fun.now) (2 ^ 32 - 1) }
{
    depth_of_tys(fun.types.as_slice()).saturating_add(1)
}

/// The depth of the deepest of the functions.
fn depth_of_funs(funs: &[Fun]) -> u32
    ensures { result ≡ min (largest (map fun_depth funs.now)) (2 ^ 32 - 1) }
{
    let mut deepest: u32 = 0;
    for fun in funs {
        deepest = deepest.max(depth_of_fun(fun));
    }
    deepest
}

/// The depth of the term with `by`, which is so deep, put in for the variable; or 2^32 - 1 where it is deeper. Its calls nest
/// as deep as the term.
#[cycle(depth_of_put)]
pub(crate) fn depth_of_put(t: &Term, variable: u32, by: &Term, height: u32) -> u32
    requires { height ≡ min (term_depth by.now) (2 ^ 32 - 1) }
    ensures { result ≡ min (term_depth (term_put variable by.now t.now)) (2 ^ 32 - 1) }
{
    match t {
        Term::Free(number) => { if *number == variable { height } else { 1 } }
        Term::Bound(_) | Term::Lit(_) => 1,
        Term::Con { types, fields, .. } => {
            let below = depth_of_tys(types.as_slice()).max(depth_of_puts(
                fields.as_slice(),
                variable,
                by,
                height,
            ));
            below.saturating_add(1)
        }
        Term::Call { fun, funs, args } => {
            let functions = depth_of_tys(fun.types.as_slice()).max(depth_of_funs(funs.as_slice()));
            functions
                .max(depth_of_puts(args.as_slice(), variable, by, height))
                .saturating_add(1)
        }
        Term::Match {
            on,
            types,
            arms,
            ..
        } => {
            let scrutinee = depth_of_put(on.get(), variable, by, height).max(depth_of_tys(
                types.as_slice(),
            ));
            scrutinee
                .max(depth_of_puts(arms.as_slice(), variable, by, height))
                .saturating_add(1)
        }
    }
}

/// The depth of the deepest of the terms with `by` put in for the variable; 0 where there is none.
#[cycle(depth_of_put)]
fn depth_of_puts(terms: &[Term], variable: u32, by: &Term, height: u32) -> u32
    requires { height ≡ min (term_depth by.now) (2 ^ 32 - 1) }
    ensures { result ≡ min (terms_depth (map (term_put variable by.now) terms.now)) (2 ^ 32 - 1) }
{
    let mut deepest: u32 = 0;
    for t in terms {
        deepest = deepest.max(depth_of_put(t, variable, by, height));
    }
    deepest
}
