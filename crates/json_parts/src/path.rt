//! Paths: where in a file a value stands.

ghost use Rattle.std.specs.Prelude.{◌≡◌, IfOk};
ghost use Rattle.json_parts.specs.Paths.{below, item_below};

use lex_text::Name;
use std::alloc::{AllocError, Global};

/// The path of a member of the object at `path`.
pub fn member_path(alloc: Global, path: &str, name: &str) -> Result<Name, AllocError>
    ensures { IfOk result (λ p. p ≡ below path.now name.now) }
{
    let text = format!(in alloc; "{path}/{name}")?;
    Name::new(alloc, text.as_str())
}

/// The path of an element of the array at `path`, by its number from 0 on.
pub fn item_path(alloc: Global, path: &str, number: usize) -> Result<Name, AllocError>
    ensures { IfOk result (λ p. p ≡ item_below path.now number) }
{
    let text = format!(in alloc; "{path}/{number}")?;
    Name::new(alloc, text.as_str())
}
