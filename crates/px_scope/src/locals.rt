//! What a declaration declares for itself: its type parameters, its parameters and its patterns' variables.
ghost use Rattle.std.specs.Prelude.{◌≡◌, [], None};
ghost use Rattle.px_scope.specs.Standing.{local_of, local_at, no_parameters, nothing_local};

use crate::names::NameTable;
use std::alloc::Global;

/// What a local name stands for: a function parameter or a data parameter by its number, or a pattern's variable,
/// counted from the inside.
#[derive(Clone, Copy, Debug, PartialEq, Eq)]
pub(crate) enum Local {
    Function(u32),
    Value(u32),
    Pattern(u32),
}

/// The type parameters of a declaration, and the datatype that is being declared, where it is one.
#[derive(Drop)]
pub(crate) struct TypeLocals {
    pub(crate) parameters: NameTable,
    pub(crate) own: Option<u32>,
}

impl TypeLocals {
    /// No type parameters.
    pub(crate) fn new(alloc: Global) -> TypeLocals
        ensures { result ≡ no_parameters }
    {
        TypeLocals {
            parameters: NameTable::new(alloc),
            own: None,
        }
    }
}

/// What is local at a place. `names` has the function parameters, so many as `functions`, then the data parameters, so
/// many as `values`, and then the variables of the patterns around the place, the innermost last. `own_definition` is the
/// definition that is being declared, where it is one.
#[derive(Drop)]
pub(crate) struct Locals {
    pub(crate) types: TypeLocals,
    pub(crate) names: NameTable,
    pub(crate) functions: usize,
    pub(crate) values: usize,
    pub(crate) own_definition: Option<u32>,
}

impl Locals {
    /// Nothing is local.
    pub(crate) fn new(alloc: Global) -> Locals
        ensures { result ≡ nothing_local }
    {
        Locals {
            types: TypeLocals::new(alloc),
            names: NameTable::new(alloc),
            functions: 0,
            values: 0,
            own_definition: None,
        }
    }

    /// What a local name stands for; `None` where it is not local.
    pub(crate) fn find(&self, name: &str) -> Option<Local>
        ensures { result ≡ local_of self.now name.now }
    {
        let number = self.names.number(name)?;
        self.at(number)
    }

    /// What the local of this number is.
    fn at(&self, number: u32) -> Option<Local>
        ensures { result ≡ local_at self.now number }
    {
        let place = number as usize;
        if place < self.functions {
            return Some(Local::Function(number));
        }
        if place - self.functions < self.values {
            return match u32::try_from(place - self.functions) {
                Ok(number) => Some(Local::Value(number)),
                Err(_) => None,
            };
        }
        match u32::try_from(self.names.len().saturating_sub(place + 1)) {
            Ok(number) => Some(Local::Pattern(number)),
            Err(_) => None,
        }
    }
}
