//! Files of entries: what the tables of a network's switches hold before the first packet.
//!
//! The layer above gets `load_entries`, which reads a value as the tables of each switch of a
//! network, and `states_before`, these tables before the first entry; beside them `load_control` and
//! `read_contents`, which read the contents of control variables. `specs/Tables` says what a
//! file makes of the tables of one switch, `Entries` of all. Each state is one of the program's
//! tables, so that a switch can be made of it.
//!
//! Follows: RFC 8259, as `serde_json` reads it: of a member that stands twice the last counts.
#![tactic(auto)]

mod load;
mod table;

pub use control_file::{load_control, read_contents};
pub use load::{load_entries, states_before};
