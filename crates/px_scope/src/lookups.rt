//! What names stand for at their places, or the first rule that they break there.
ghost use Rattle.std.specs.Prelude.{◌≡◌, true, false, None};
ghost use Rattle.px_scope.specs.Standing.{constructor_of, head_of, head_of_local, head_of_meaning, nothing_local};
ghost use Rattle.px_scope.specs.Rules.{absent, is_own, constructor_fault, value_fault, function_fault, local_function_fault, global_function_fault, constructor_argument_fault, from_fault, claim_fault, merge_fault};
ghost use Rattle.px_scope.specs.Uses.{broken_or};
ghost use Rattle.px_scope.specs.Answers.{Fails, Finds, IsVariable, IsCalled, IsClaimed};

use crate::ends::{ScopeEnd, ScopeKind};
use crate::globals::{Constructor, Globals, Meaning};
use crate::later::{declares_constructor, declares_lower};
use crate::locals::{Local, Locals};
use px_base::Head;
use px_parser::{Item, Name};

/// A data variable: a parameter by its number, or a pattern's variable, counted from the inside.
#[derive(Clone, Copy, Debug, PartialEq, Eq)]
pub(crate) enum Variable {
    Value(u32),
    Pattern(u32),
}

/// A function that is called, and how many of its first arguments are functions.
#[derive(Clone, Copy, Debug, PartialEq, Eq)]
pub(crate) struct Called {
    pub(crate) head: Head,
    pub(crate) functions: usize,
}

/// The rule that a name breaks which is not declared before its place.
pub(crate) fn absent_kind(declared: bool) -> ScopeKind
    ensures { result ≡ absent declared }
{
    if declared {
        ScopeKind::Later
    } else {
        ScopeKind::Unknown
    }
}

/// The fault of this kind at this place.
pub(crate) fn fault(kind: ScopeKind, at: u32) -> ScopeEnd
    ensures { result ≡ ScopeEnd.Fault kind at }
{
    ScopeEnd::Fault { kind, at }
}

/// The constructor that a name stands for in an expression or a pattern.
pub(crate) fn find_constructor(
    text: &[Item],
    globals: &Globals,
    name: &Name,
) -> Result<Constructor, ScopeEnd>
    ensures { Finds name.now.at (constructor_fault text.now globals.now name.now.text) (λ con. constructor_of globals.now name.now.text ≡ Some con) result }
{
    match globals.constructor(name.text.as_str()) {
        Some(con) => Ok(con),
        None => {
            let kind = absent_kind(declares_constructor(text, name.text.as_str()));
            Err(fault(kind, name.at))
        }
    }
}

/// The data variable that a name stands for which is not called.
pub(crate) fn find_variable(
    text: &[Item],
    globals: &Globals,
    locals: &Locals,
    name: &Name,
) -> Result<Variable, ScopeEnd>
    ensures { Finds name.now.at (value_fault text.now globals.now locals.now name.now.text false) (IsVariable locals.now name.now.text) result }
{
    match locals.find(name.text.as_str()) {
        Some(Local::Value(number)) => Ok(Variable::Value(number)),
        Some(Local::Pattern(number)) => Ok(Variable::Pattern(number)),
        Some(Local::Function(_)) => Err(fault(ScopeKind::WrongPlace, name.at)),
        None => match globals.meaning(name.text.as_str()) {
            Some(_) => Err(fault(ScopeKind::WrongPlace, name.at)),
            None => {
                let kind = absent_kind(declares_lower(text, name.text.as_str()));
                Err(fault(kind, name.at))
            }
        },
    }
}

/// The function that a name stands for which is called.
pub(crate) fn find_called(
    text: &[Item],
    globals: &Globals,
    locals: &Locals,
    name: &Name,
) -> Result<Called, ScopeEnd>
    ensures { Finds name.now.at (value_fault text.now globals.now locals.now name.now.text true) (IsCalled globals.now locals.now name.now.text) result }
{
    match locals.find(name.text.as_str()) {
        Some(Local::Function(number)) => Ok(Called {
            head: Head::FnVar(number),
            functions: 0,
        }),
        Some(Local::Value(_)) => Err(fault(ScopeKind::WrongPlace, name.at)),
        Some(Local::Pattern(_)) => Err(fault(ScopeKind::WrongPlace, name.at)),
        None => match globals.meaning(name.text.as_str()) {
            Some(Meaning::Wle) => Ok(Called {
                head: Head::Wle,
                functions: 0,
            }),
            Some(Meaning::Weq) => Ok(Called {
                head: Head::Weq,
                functions: 0,
            }),
            Some(Meaning::Definition { number, functions }) => Ok(Called {
                head: Head::Def(number),
                functions,
            }),
            Some(Meaning::Lemma) => Err(fault(ScopeKind::WrongPlace, name.at)),
            Some(Meaning::Replica) => Err(fault(ScopeKind::WrongPlace, name.at)),
            None => {
                let kind = absent_kind(declares_lower(text, name.text.as_str()));
                Err(fault(kind, name.at))
            }
        },
    }
}

/// The function that a name stands for in a function argument's place, where it is called or not.
pub(crate) fn find_function(
    text: &[Item],
    globals: &Globals,
    locals: &Locals,
    name: &Name,
    called: bool,
) -> Result<Head, ScopeEnd>
    ensures { Finds name.now.at (function_fault text.now globals.now locals.now name.now.text called) (λ head. head_of globals.now locals.now name.now.text ≡ Some head) result }
{
    match locals.find(name.text.as_str()) {
        Some(local) => find_local_function(local, name.at, called),
        None => match globals.meaning(name.text.as_str()) {
            None => {
                let kind = absent_kind(declares_lower(text, name.text.as_str()));
                Err(fault(kind, name.at))
            }
            Some(meaning) => find_global_function(locals, meaning, name.at, called),
        },
    }
}

/// The function that this local is in a function argument's place, at this place of the text.
fn find_local_function(local: Local, at: u32, called: bool) -> Result<Head, ScopeEnd>
    ensures { Finds at (local_function_fault local called) (λ head. head_of_local local ≡ Some head) result }
{
    match local {
        Local::Function(number) => {
            if called {
                return Err(fault(ScopeKind::WrongPlace, at));
            }
            Ok(Head::FnVar(number))
        }
        Local::Value(_) => Err(fault(ScopeKind::WrongPlace, at)),
        Local::Pattern(_) => Err(fault(ScopeKind::WrongPlace, at)),
    }
}

/// The function that this meaning is in a function argument's place, at this place of the text.
fn find_global_function(
    locals: &Locals,
    meaning: Meaning,
    at: u32,
    called: bool,
) -> Result<Head, ScopeEnd>
    ensures { Finds at (global_function_fault false locals.now (Some meaning) called) (λ head. head_of_meaning meaning ≡ Some head) result }
{
    if called {
        return Err(fault(ScopeKind::WrongPlace, at));
    }
    match meaning {
        Meaning::Wle => Ok(Head::Wle),
        Meaning::Weq => Ok(Head::Weq),
        Meaning::Definition { number, functions } => {
            if functions > 0 || is_number(locals.own_definition, number) {
                return Err(fault(ScopeKind::WrongPlace, at));
            }
            Ok(Head::Def(number))
        }
        _ => Err(fault(ScopeKind::WrongPlace, at)),
    }
}

/// Whether the number is this one, where there is one.
pub(crate) fn is_number(own: Option<u32>, number: u32) -> bool
    ensures { result ≡ is_own own number }
{
    match own {
        Some(own) => own == number,
        None => false,
    }
}

/// The fault of a constructor's name in a function argument's place.
pub(crate) fn constructor_as_function(text: &[Item], globals: &Globals, name: &Name) -> ScopeEnd
    ensures { Fails (broken_or name.now.at (constructor_argument_fault text.now globals.now name.now.text) None) result }
{
    match globals.constructor(name.text.as_str()) {
        Some(_) => fault(ScopeKind::WrongPlace, name.at),
        None => {
            let kind = absent_kind(declares_constructor(text, name.text.as_str()));
            fault(kind, name.at)
        }
    }
}

/// The fault of a name with a small letter in a replica's first value.
pub(crate) fn lower_in_from(text: &[Item], globals: &Globals, name: &Name) -> ScopeEnd
    ensures { Fails (broken_or name.now.at (from_fault text.now globals.now name.now.text) None) result }
{
    match globals.meaning(name.text.as_str()) {
        Some(_) => fault(ScopeKind::WrongPlace, name.at),
        None => {
            let kind = absent_kind(declares_lower(text, name.text.as_str()));
            fault(kind, name.at)
        }
    }
}

/// The number of the definition of which properties are claimed.
pub(crate) fn find_claimed(text: &[Item], globals: &Globals, name: &Name) -> Result<u32, ScopeEnd>
    ensures { Finds name.now.at (claim_fault text.now globals.now name.now.text) (IsClaimed globals.now name.now.text) result }
{
    match globals.meaning(name.text.as_str()) {
        Some(Meaning::Definition { number, .. }) => Ok(number),
        Some(_) => Err(fault(ScopeKind::WrongPlace, name.at)),
        None => {
            let kind = absent_kind(declares_lower(text, name.text.as_str()));
            Err(fault(kind, name.at))
        }
    }
}

/// The function that merges, by its name.
pub(crate) fn find_merge(text: &[Item], globals: &Globals, name: &Name) -> Result<Head, ScopeEnd>
    ensures { Finds name.now.at (merge_fault text.now globals.now name.now.text) (λ head. head_of globals.now nothing_local name.now.text ≡ Some head) result }
{
    match globals.meaning(name.text.as_str()) {
        Some(Meaning::Wle) => Ok(Head::Wle),
        Some(Meaning::Weq) => Ok(Head::Weq),
        Some(Meaning::Definition { number, .. }) => Ok(Head::Def(number)),
        Some(_) => Err(fault(ScopeKind::WrongPlace, name.at)),
        None => {
            let kind = absent_kind(declares_lower(text, name.text.as_str()));
            Err(fault(kind, name.at))
        }
    }
}
