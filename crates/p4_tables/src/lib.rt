//! The tables of a switch: what they hold, and what they choose.
//!
//! The layer above gets `TableState`, all tables of one switch, by their numbers in the text of a
//! well-typed program (`new`). `insert` and `set_default` test what they are given; `replace` puts a
//! list that was tested into the place of another; `choose` answers the action that a table runs for
//! its keys; `shape` says what a table takes, for readers of entries, `listed` and `default` what it
//! holds. `carried` gives the tables of a program with what those of another one hold, by the names of
//! tables and actions, where `stands_in` tells that each of them has a place there (`specs/Carried`).
//! Contracts see a list of what each table takes and holds (`specs/State`).
//!
//! `choose` takes no memory. What it answers is said by the relation `IsChosen` of `p4_meaning`, and
//! no two entries that a table holds have that relation to the same keys (`choices_are_unique`).
//!
//! Follows: P4_16 Language Specification and v1model, this project's subset.
//!
//! Speed: a choice goes by the index of each table (`table_entries`).
#![tactic(auto)]

mod actions;
mod carried;
mod carry;
mod faults;
mod held;
mod stands;
mod start;
mod state;

pub use stands::stands_in;
pub use state::{TableState, actions_are_listed, choices_are_unique};
pub use table_entries::{Act, Chosen, Entry, Match};
pub use table_faults::EntryFault;
pub use table_shapes::{ActionShape, KeyKind, KeyShape, Shape};
pub use value_shapes::ValueShape;
