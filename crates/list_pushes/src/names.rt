//! Names of numbered scalars.

ghost use Rattle.std.specs.Prelude.{◌≡◌, IfOk};
ghost use Rattle.list_pushes.specs.Names.{count_name, item_name};

use lex_text::Name;
use std::alloc::{AllocError, Global};

/// The name of a list's item, or of a scalar.
#[tactic(auto, unfolding(crate::specs::Names::item_name))]
pub fn item_name(alloc: Global, number: usize, item: u8) -> Result<Name, AllocError>
    ensures { IfOk result (λ n. n ≡ item_name number item) }
{
    let text = format!(in alloc; "{number}_{item}")?;
    Name::new(alloc, text.as_str())
}

/// The name of a list's count.
#[tactic(auto, unfolding(crate::specs::Names::count_name))]
pub fn count_name(alloc: Global, number: usize) -> Result<Name, AllocError>
    ensures { IfOk result (λ n. n ≡ count_name number) }
{
    let text = format!(in alloc; "{number}_c")?;
    Name::new(alloc, text.as_str())
}
