//! The table of the properties, and what is read of it.

ghost use Rattle.std.specs.Prelude.{◌≡◌, ◌↔◌, map};
ghost use Rattle.px_terms.specs.Clauses.{Subject, HasResult, says};
ghost use Rattle.px_props.specs.Table.{IsAsked, equation_of};

use px_terms::Prop;

/// What a property asks of the function's result: nothing, the type of the last two parameters, or `Bool`.
#[derive(Clone, Copy)]
pub(crate) enum Asked {
    Any,
    Last,
    Truth,
}

/// A variable that a property names, behind those of the leading parameters.
#[derive(Clone, Copy)]
pub(crate) enum Name {
    X,
    Y,
    Z,
}

/// A side of an equation: a variable, a truth value, or the function on its leading variables and two more. Where it stands
/// in itself, it does so as the left or the right one of the two.
#[derive(Clone, Copy)]
pub(crate) enum Side {
    Variable(Name),
    Truth(bool),
    Once(Name, Name),
    Left(Name, Name, Name),
    Right(Name, Name, Name),
}

/// Two sides that are to have one value.
#[derive(Clone, Copy)]
pub(crate) struct Sides {
    pub left: Side,
    pub right: Side,
}

/// The table of the properties. A row has what is asked of the result, the variables, the premises and the alternatives,
/// where `f` stands for the function on its leading variables. The macro `$read` takes from a row what it is after.
macro_rules! table {
    ($read:ident, $prop:expr) => {
        match $prop {
            Prop::Comm => $read!(Any; x, y; [] => [(f(x, y) = f(y, x))]),
            Prop::Assoc => $read!(Last; x, y, z; [] => [(f(f(x, y), z) = f(x, f(y, z)))]),
            Prop::Idem => $read!(Last; x; [] => [(f(x, x) = x)]),
            Prop::Sel => $read!(Last; x, y; [] => [(f(x, y) = x) (f(x, y) = y)]),
            Prop::Refl => $read!(Truth; x; [] => [(f(x, x) = True)]),
            Prop::Irrefl => $read!(Truth; x; [] => [(f(x, x) = False)]),
            Prop::Sym => $read!(Truth; x, y; [(f(x, y) = True)] => [(f(y, x) = True)]),
            Prop::Antisym => $read!(Truth; x, y; [(f(x, y) = True) (f(y, x) = True)] => [(x = y)]),
            Prop::Asym => $read!(Truth; x, y; [(f(x, y) = True)] => [(f(y, x) = False)]),
            Prop::Trans => $read!(Truth; x, y, z; [(f(x, y) = True) (f(y, z) = True)] => [(f(x, z) = True)]),
            Prop::Conn => $read!(Truth; x, y; [(f(x, y) = False)] => [(f(y, x) = True)]),
        }
    };
}

/// Of a row, what is asked of the result.
macro_rules! asked {
    ($asked:ident; $($name:ident),+; [$($premise:tt)*] => [$($alternative:tt)*]) => { Asked::$asked };
}

/// Of a row, how many variables there are.
macro_rules! count {
    ($asked:ident; $($name:ident),+; [$($premise:tt)*] => [$($alternative:tt)*]) => { 0 $(+ one!($name))+ };
}

/// Of a row, the premises.
macro_rules! premises {
    ($asked:ident; $($name:ident),+; [$($premise:tt)*] => [$($alternative:tt)*]) => { &[$(sides!($premise)),*] };
}

/// Of a row, the alternatives.
macro_rules! alternatives {
    ($asked:ident; $($name:ident),+; [$($premise:tt)*] => [$($alternative:tt)*]) => { &[$(sides!($alternative)),*] };
}

/// One, for a variable.
macro_rules! one {
    ($name:ident) => { 1 };
}

/// An equation of a row.
macro_rules! sides {
    ((f $a:tt = f $b:tt)) => { Sides { left: side!(f $a), right: side!(f $b) } };
    ((f $a:tt = $b:tt)) => { Sides { left: side!(f $a), right: side!($b) } };
    (($a:tt = $b:tt)) => { Sides { left: side!($a), right: side!($b) } };
}

/// A side of an equation of a row.
macro_rules! side {
    (f ($a:ident, $b:ident)) => { Side::Once(name!($a), name!($b)) };
    (f (f ($a:ident, $b:ident), $c:ident)) => { Side::Left(name!($a), name!($b), name!($c)) };
    (f ($a:ident, f ($b:ident, $c:ident))) => { Side::Right(name!($a), name!($b), name!($c)) };
    (True) => { Side::Truth(true) };
    (False) => { Side::Truth(false) };
    ($a:ident) => { Side::Variable(name!($a)) };
}

/// A variable of a row.
macro_rules! name {
    (x) => { Name::X };
    (y) => { Name::Y };
    (z) => { Name::Z };
}

/// What the property asks of the function's result.
pub(crate) fn asked_by(prop: Prop) -> Asked
    ensures { (s : Subject) → (HasResult s prop ↔ IsAsked s result) }
{
    table!(asked, prop)
}

/// How many variables the property names, besides those of the leading parameters.
pub(crate) fn named_by(prop: Prop) -> u32
    ensures { (s : Subject) → result ≡ (says s prop).named }
{
    table!(count, prop)
}

/// The premises of the property.
pub(crate) fn premises_of(prop: Prop) -> &'static [Sides]
    ensures { (s : Subject) → map (equation_of s) result.now ≡ (says s prop).premises }
{
    table!(premises, prop)
}

/// The alternatives of the property.
pub(crate) fn alternatives_of(prop: Prop) -> &'static [Sides]
    ensures { (s : Subject) → map (equation_of s) result.now ≡ (says s prop).alternatives }
{
    table!(alternatives, prop)
}
