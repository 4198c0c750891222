//! Questions on lists and tables of names.

ghost use Rattle.std.specs.Prelude.{◌≡◌, ℕ, List, IfOk};
ghost use Rattle.p4_parser_states.specs.Cycles.{is_among};
ghost use Rattle.p4_declaration_rules.specs.Declarations.{has_twice, field_names};
ghost use Rattle.p4_declaration_rules.specs.Loops.{named};

use indexmap::IndexSet;
use lex_text::Name;
use p4_tree::PTy;
use std::alloc::{AllocError, Global};

/// Whether the name is one of the list.
pub(crate) fn is_among(names: &[Name], name: &Name) -> bool
    ensures { result ≡ is_among names.now name.now }
{
    for other in names {
        if other.as_str() == name.as_str() {
            return true;
        }
    }
    false
}

/// A table of the names, for many questions on one list.
pub fn name_table<'a>(alloc: Global, names: &'a [Name]) -> Result<IndexSet<&'a str>, AllocError>
    ensures { IfOk result (λ table. (x : List ℕ)
        → is_among (named table.keys) x ≡ is_among names.now x) }
{
    let mut table = IndexSet::new(alloc);
    for name in names {
        table.insert(name.as_str())?;
    }
    Ok(table)
}

/// Whether the name is in the table.
pub fn is_in(table: &IndexSet<&str>, name: &Name) -> bool
    ensures { result ≡ is_among (named table.now.keys) name.now }
{
    table.contains(name.as_str())
}

/// Whether some name stands twice.
pub fn has_twice(alloc: Global, names: &[Name]) -> Result<bool, AllocError>
    ensures { IfOk result (λ twice. twice ≡ has_twice names.now) }
{
    let mut seen = IndexSet::new(alloc);
    for name in names {
        if !seen.insert(name.as_str())? {
            return Ok(true);
        }
    }
    Ok(false)
}

/// Whether two fields have one name.
pub(crate) fn has_field_twice(alloc: Global, fields: &[(PTy, Name)]) -> Result<bool, AllocError>
    ensures { IfOk result (λ twice. twice ≡ has_twice (field_names fields.now)) }
{
    let mut seen = IndexSet::new(alloc);
    for field in fields {
        if !seen.insert(field.1.as_str())? {
            return Ok(true);
        }
    }
    Ok(false)
}
