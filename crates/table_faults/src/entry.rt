//! Why an entry or a default is refused.

ghost use Rattle.std.specs.Prelude.{◌≡◌};
ghost use Rattle.table_faults.specs.declared.entry.EntryFault.TheVariants.{NoMemory};

use std::alloc::AllocError;

/// Why an entry or a default is refused. Of several causes the first in this order is answered.
#[derive(Clone, Copy, Debug, PartialEq, Eq)]
pub enum EntryFault {
    /// The action is not in the table's list.
    NoSuchAction,
    /// The number, the kind or the width of keys or arguments differs, or a prefix is longer than
    /// its key.
    WidthDiffers,
    /// An entry with the same keys under their masks is held, of the same priority where one key
    /// is ternary.
    SameEntry,
    /// A table with a ternary key holds an entry of this priority.
    SamePriority,
    /// The tables hold 65,536 entries.
    TableLimit,
    /// The default that is written is `const`.
    ConstDefault,
    NoMemory,
}

impl From<AllocError> for EntryFault {
    ghost from_gives = { λ _ e. e ≡ NoMemory };

    fn from(_e: AllocError) -> EntryFault {
        EntryFault::NoMemory
    }
}
