//! The names of what the lookup of a number declares.

ghost use Rattle.std.specs.Prelude.{◌≡◌, IfOk};
ghost use Rattle.lookup_names.specs.Names as names;

use lex_text::Name;
use std::alloc::{AllocError, Global};

/// The table.
pub fn table_name(alloc: Global, number: u32) -> Result<Name, AllocError>
    ensures { IfOk result (λ x. x ≡ names.table_name number) }
{
    let text = format!(in alloc; "hydra_t_{number}")?;
    Name::new(alloc, text.as_str())
}

/// The table's first action.
pub fn action_name(alloc: Global, number: u32) -> Result<Name, AllocError>
    ensures { IfOk result (λ x. x ≡ names.action_name number) }
{
    let text = format!(in alloc; "hydra_a_{number}")?;
    Name::new(alloc, text.as_str())
}

/// The variable that holds what is found.
pub fn found_name(alloc: Global, number: u32) -> Result<Name, AllocError>
    ensures { IfOk result (λ x. x ≡ names.found_name number) }
{
    let text = format!(in alloc; "hydra_f_{number}")?;
    Name::new(alloc, text.as_str())
}

/// The variable that holds a part of the key; parts are numbered from 0.
pub fn key_name(alloc: Global, number: u32, part: usize) -> Result<Name, AllocError>
    ensures { IfOk result (λ x. x ≡ names.key_name number part) }
{
    let text = format!(in alloc; "hydra_k_{number}_{part}")?;
    Name::new(alloc, text.as_str())
}
