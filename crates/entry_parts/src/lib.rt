//! Entries and defaults of tables, as files write them.
//!
//! The layer above gets `read_entry` and `read_default`, which read one entry or one default over
//! what its table takes. How they are written stands in `specs/Written`, which words and matches
//! they say in `specs/Matches`, and of several faults the first in `specs/Entries`: those of the
//! form come before those of the action and the widths, and these before those of the values.
//!
//! Whether the table holds an entry that clashes is not looked at here.
//!
//! Follows: RFC 8259, as `serde_json` reads it.
#![tactic(auto)]

mod entry;
mod matches;
mod parts;
mod written;

pub use entry::{entry_refused, read_default, read_entry};
