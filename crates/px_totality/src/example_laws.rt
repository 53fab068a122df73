ghost use Rattle.px_totality.specs.ExampleLaws.{EmptyHoldsOfNothing, FirstIsNotCommutative, SameOfAnyFails, SameOfIdempotentHolds};

/// Of `def same(f: (Bool, Bool) -> Bool, a: Bool): Bool { f(a, a) }` the clause `same(f, a) = a` holds in the
/// program of `same` alone, where no function fits, and fails in the extension by
/// `def never(a: Bool, b: Bool): Bool { False }`.
pub fn same_of_any_fails()
    ensures { SameOfAnyFails }
{}

/// Where f is assumed to be idempotent, `same(f, a) = a` holds in every extension.
pub fn same_of_idempotent_holds()
    ensures { SameOfIdempotentHolds }
{}

/// Of `data Empty { More(Empty) }`, which has no values, every clause holds, and of no variables not every one does.
pub fn empty_holds_of_nothing()
    ensures { EmptyHoldsOfNothing }
{}

/// Of `def first(a: T, b: T): T { a }` in any program, where T has two values, the clause of commutativity does not hold.
pub fn first_is_not_commutative()
    ensures { FirstIsNotCommutative }
{}
