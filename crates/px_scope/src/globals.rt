//! What was declared so far at the top of the text, and what is built in.
ghost use Rattle.std.specs.Prelude.{◌≡◌, Some, IfOk, IfErr};
ghost use Rattle.px_scope.specs.Rules.{is_type_name};
ghost use Rattle.px_scope.specs.Standing.{constructor_of, meaning_of, built_in};

use crate::ends::ScopeEnd;
use crate::names::NameTable;
use px_base::Prop;
use sqlite_items::{Items, at};
use std::alloc::Global;

/// A constructor: its datatype, and its number there.
#[derive(Clone, Copy, Debug, PartialEq, Eq)]
pub(crate) struct Constructor {
    pub(crate) datatype: u32,
    pub(crate) number: u32,
}

/// What a name that begins with a small letter stands for, where it is no local: a definition with its number and how
/// many function parameters it has, or something else.
#[derive(Clone, Copy, Debug, PartialEq, Eq)]
pub(crate) enum Meaning {
    Wle,
    Weq,
    Definition { number: u32, functions: usize },
    Lemma,
    Replica,
}

/// What was declared so far. `datatypes` are by number, `Bool` the first; `constructors` and `meanings` say what
/// the names of `cons` and of `lowers` stand for; `claimed` has the properties of each definition.
#[derive(Drop)]
pub(crate) struct Globals {
    pub(crate) datatypes: NameTable,
    pub(crate) cons: NameTable,
    pub(crate) constructors: Items<Constructor>,
    pub(crate) lowers: NameTable,
    pub(crate) meanings: Items<Meaning>,
    pub(crate) claimed: Items<Items<Prop>>,
}

impl Globals {
    /// What is built in.
    pub(crate) fn new(alloc: Global) -> Result<Globals, ScopeEnd>
        ensures built_in { IfOk result (λ globals. globals ≡ built_in) }
        ensures memory { IfErr result (λ end. end ≡ ScopeEnd.NoMemory) }
    {
        let mut datatypes = NameTable::new(alloc);
        datatypes.add(alloc, "Bool")?;
        let mut cons = NameTable::new(alloc);
        cons.add(alloc, "False")?;
        cons.add(alloc, "True")?;
        let mut constructors = Items::new(alloc);
        constructors.push(Constructor {
            datatype: 0,
            number: 0,
        })?;
        constructors.push(Constructor {
            datatype: 0,
            number: 1,
        })?;
        let mut lowers = NameTable::new(alloc);
        lowers.add(alloc, "wle")?;
        lowers.add(alloc, "weq")?;
        let mut meanings = Items::new(alloc);
        meanings.push(Meaning::Wle)?;
        meanings.push(Meaning::Weq)?;
        Ok(Globals {
            datatypes,
            cons,
            constructors,
            lowers,
            meanings,
            claimed: Items::new(alloc),
        })
    }

    /// Whether a type of this name is declared or built in.
    pub(crate) fn has_type(&self, name: &str) -> bool
        ensures { result ≡ is_type_name self.now name.now }
    {
        name == "Word" || self.datatypes.has(name)
    }

    /// The constructor that a name stands for.
    pub(crate) fn constructor(&self, name: &str) -> Option<Constructor>
        ensures { result ≡ constructor_of self.now name.now }
    {
        let number = self.cons.number(name)?;
        at(self.constructors.as_slice(), number as usize).copied()
    }

    /// What a name stands for.
    pub(crate) fn meaning(&self, name: &str) -> Option<Meaning>
        ensures { result ≡ meaning_of self.now name.now }
    {
        let number = self.lowers.number(name)?;
        at(self.meanings.as_slice(), number as usize).copied()
    }
}
