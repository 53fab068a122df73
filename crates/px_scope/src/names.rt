//! Names by number, none of them twice.
ghost use Rattle.std.specs.Prelude.{◌≡◌, [], ◌∷◌, ◌++◌, take, length, map, string_bytes, not, IfOk, IfErr, if◌then◌else◌};
ghost use Rattle.px_scope.specs.Names.{is_name, number_of};

use crate::ends::ScopeEnd;
use indexmap::IndexSet;
use std::alloc::Global;
use std::marker::Model;

/// Names, each with its number: how many were added before it.
#[derive(Drop)]
pub(crate) struct NameTable {
    names: IndexSet<String>,
}

impl Model for NameTable {
    ghost use Rattle.std.specs.Prelude.{List, ℕ, map, string_bytes};

    ghost Value = { List (List ℕ) };

    ghost view = { λ t. map string_bytes t.names.keys };
}

impl NameTable {
    /// No names.
    pub(crate) fn new(alloc: Global) -> NameTable
        ensures { result ≡ [] }
    {
        NameTable {
            names: IndexSet::new(alloc),
        }
    }

    /// How many names there are.
    pub(crate) fn len(&self) -> usize
        ensures { result ≡ length self.now }
    {
        self.names.len()
    }

    /// Adds a name, with the next number, and answers whether it is new. One that is there already stays as it is.
    pub(crate) fn add(&mut self, alloc: Global, name: &str) -> Result<bool, ScopeEnd>
        ensures added { IfOk result (λ is_new. self.new ≡ (if is_new then self.old ++ name.now ∷ [] else self.old)) }
        ensures known { IfOk result (λ is_new. is_name self.old name.now ≡ not is_new) }
        ensures memory { IfErr result (λ end. end ≡ ScopeEnd.NoMemory) }
    {
        let owned = String::from_str(alloc, name)?;
        let (_, is_new) = self.names.insert_full(owned)?;
        Ok(is_new)
    }

    /// Whether the name is there.
    pub(crate) fn has(&self, name: &str) -> bool
        ensures { result ≡ is_name self.now name.now }
    {
        self.names.contains(name)
    }

    /// The number of a name; `None` where it is not there, or its number is 2^32 or more.
    pub(crate) fn number(&self, name: &str) -> Option<u32>
        ensures { result ≡ number_of self.now name.now }
    {
        let Some(index) = self.names.get_index_of(name) else {
            return None;
        };
        match u32::try_from(index) {
            Ok(number) => Some(number),
            Err(_) => None,
        }
    }

    /// The names, by number.
    pub(crate) fn texts(&self) -> &[String]
        ensures { map string_bytes result.now ≡ self.now }
    {
        self.names.as_slice()
    }

    /// Keeps the first names, so many, and drops the others.
    pub(crate) fn truncate(&mut self, len: usize)
        ensures { self.new ≡ take len self.old }
    {
        self.names.truncate(len);
    }
}
