//! Declarations, with what is known of them.

ghost use Rattle.std.specs.Prelude.{◌≡◌};
ghost use Rattle.p4_scopes.specs.Entries.{entry_resolved, entry_field};

use crate::kind::Kind;
use crate::resolved::Resolved;
use crate::thing::{Access, Thing};
use indexmap::IndexMap;
use lex_text::Name;
use p4_tree::PTy;

/// What is declared, with what its types were where it was declared.
#[derive(Drop)]
pub enum Declared<'a> {
    Alias(&'a PTy, Thing),
    /// A header or a struct with its fields, and these by their names.
    Fields(Thing, &'a [(PTy, Name)], IndexMap<&'a str, Resolved>),
    Value(Access, &'a PTy, Resolved),
    Register(&'a PTy, Kind),
    Action(&'a [(PTy, Name)], u32, Vec<Kind>),
    Table(u32),
    State,
    Part,
}

/// A declaration of a name.
#[derive(Drop)]
pub struct Entry<'a> {
    pub name: &'a str,
    pub declared: Declared<'a>,
    /// The number of the declaration before it that has the same name.
    pub older: Option<usize>,
}

/// What a declaration of this number is as a type.
pub(crate) fn entry_resolved(d: &Declared, i: usize) -> Resolved
    ensures { result ≡ entry_resolved d.now i }
{
    match d {
        Declared::Alias(_, t) => Resolved::Single(false, *t),
        Declared::Fields(h, _, _) => Resolved::Declared(*h, i),
        _ => Resolved::Missing,
    }
}

/// The type of a field.
pub(crate) fn entry_field(d: &Declared, name: &Name) -> Resolved
    ensures { result ≡ entry_field d.now name.now }
{
    match d {
        Declared::Fields(_, _, fields) => match fields.get(name.as_str()) {
            Some(r) => *r,
            None => Resolved::Missing,
        },
        _ => Resolved::Missing,
    }
}
