//! Which terms are self-calls.

ghost use Rattle.std.specs.Prelude.{◌≡◌, ◌<◌, ◌^◌, List, [], ◌∷◌, MatchOption, OnSome};
ghost use Rattle.px_terms.specs.declared.program.Program.{Program as AnyProgram};
ghost use Rattle.px_terms.specs.Descent.{Standing as AnyStanding};
ghost use Rattle.px_descent.specs.Kept.{stands_in, own_call};

use px_terms::{Head, Term};

/// The arguments of the term, where it is a call of this definition.
pub(crate) fn own_arguments<'a>(t: &'a Term, def: usize) -> Option<&'a [Term]>
    ensures is { (P : AnyProgram) (bound : List AnyStanding) → MatchOption result (own_call P def t.now bound ≡ []) (λ args. own_call P def t.now bound ≡ stands_in P def args.now bound ∷ []) }
    ensures number { OnSome result (def < 2 ^ 32) }
{
    let Term::Call { fun, args, .. } = t else {
        return None;
    };
    let Head::Def(number) = fun.head else {
        return None;
    };
    if number as usize != def {
        return None;
    }
    Some(args.as_slice())
}
