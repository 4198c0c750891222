//! Why a file of entries or of contents is refused.

ghost use Rattle.std.specs.Prelude.{◌≡◌};
ghost use Rattle.table_faults.specs.declared.table.TableFault.TheVariants.{NoMemory};

use crate::entry::EntryFault;
use lex_text::Name;
use std::alloc::{AllocError, AllocFailed};
use thiserror::Error;

/// Why a file of entries, or of the contents of control variables, is refused. `path` is the first
/// place of the file that has a fault: members in the byte order of their names, arrays in order.
#[derive(Debug, Drop, Error)]
pub enum TableFault {
    /// Memory ran out; this says nothing of the value.
    #[error("no memory")]
    NoMemory,
    /// What is at this path is unknown, missing or ill-formed.
    #[error("another value is wanted")]
    Shape { path: Name },
    /// The switch's program has no such table.
    #[error("no such table")]
    NoSuchTable { path: Name },
    /// The property has no such control variable.
    #[error("no such control variable")]
    NoSuchVariable { path: Name },
    /// The value is none of the width, or of the kind, of its place.
    #[error("no value of this place")]
    Value { path: Name },
    /// The table refuses the entry or the default.
    #[error("the table refuses it")]
    Entry { path: Name, fault: EntryFault },
    /// The key stands twice; this is the later place.
    #[error("a key stands twice")]
    KeyTwice { path: Name },
    /// The network has no such switch.
    #[error("no such switch")]
    NoSuchSwitch { path: Name },
}

impl From<AllocError> for TableFault {
    ghost from_gives = { λ _ fault. fault ≡ NoMemory };

    fn from(_refused: AllocError) -> TableFault {
        TableFault::NoMemory
    }
}

impl<T: Drop> From<AllocFailed<T>> for TableFault {
    ghost from_gives = { λ _ fault. fault ≡ NoMemory };

    fn from(_refused: AllocFailed<T>) -> TableFault {
        TableFault::NoMemory
    }
}
