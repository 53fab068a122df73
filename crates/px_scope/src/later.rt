//! What is declared anywhere in the text. It is asked only where a name was not declared before its place.
ghost use Rattle.std.specs.Prelude.{◌≡◌};
ghost use Rattle.std.specs.List.{list_any};
ghost use Rattle.std.specs.Str.{bytes_eq};
ghost use Rattle.px_parser.specs.declared.surface.SCon.{SCon as AnyCon};
ghost use Rattle.px_scope.specs.Later.{is_type, has_constructor, is_lower, declares_type as in_types, declares_constructor as in_constructors, declares_lower as in_lowers};

use px_parser::{Item, SCon};

/// Whether a datatype of this name is declared.
pub(crate) fn declares_type(text: &[Item], name: &str) -> bool
    ensures { result ≡ in_types text.now name.now }
{
    for item in text {
        if names_type(item, name) {
            return true;
        }
    }
    false
}

/// Whether the declaration is that of a datatype of this name.
fn names_type(item: &Item, name: &str) -> bool
    ensures { result ≡ is_type name.now item.now }
{
    match item {
        Item::Datatype(d) => name == d.name.text.as_str(),
        _ => false,
    }
}

/// Whether a constructor of this name is declared.
pub(crate) fn declares_constructor(text: &[Item], name: &str) -> bool
    ensures { result ≡ in_constructors text.now name.now }
{
    for item in text {
        if names_constructor(item, name) {
            return true;
        }
    }
    false
}

/// Whether the declaration has a constructor of this name.
fn names_constructor(item: &Item, name: &str) -> bool
    ensures { result ≡ has_constructor name.now item.now }
{
    match item {
        Item::Datatype(d) => is_among(d.cons.as_slice(), name),
        _ => false,
    }
}

/// Whether one of the constructors has this name.
fn is_among(cons: &[SCon], name: &str) -> bool
    ensures { result ≡ list_any (λ (con : AnyCon). bytes_eq name.now con.name.text) cons.now }
{
    for con in cons {
        if name == con.name.text.as_str() {
            return true;
        }
    }
    false
}

/// Whether a definition, a lemma or a replica of this name is declared.
pub(crate) fn declares_lower(text: &[Item], name: &str) -> bool
    ensures { result ≡ in_lowers text.now name.now }
{
    for item in text {
        if names_lower(item, name) {
            return true;
        }
    }
    false
}

/// Whether the declaration is that of a definition, a lemma or a replica of this name.
fn names_lower(item: &Item, name: &str) -> bool
    ensures { result ≡ is_lower name.now item.now }
{
    match item {
        Item::Definition(d) => name == d.name.text.as_str(),
        Item::Lemma(l) => name == l.name.text.as_str(),
        Item::Replica(r) => name == r.name.text.as_str(),
        _ => false,
    }
}
