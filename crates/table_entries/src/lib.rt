//! Entries of a table, which of them fits keys, and an index that tells what runs.
//!
//! The layer above gets `Entry`, what it asks of each key and the action that it runs, by its number;
//! `find`, one walk over entries for the one that a table chooses; and `Index`, which tells the same
//! without a walk: what the first entry runs that asks for given numbers (`longest_act`), or in a table
//! with a ternary key where the entry of a priority stands (`first_fit`, `priority_place`).
//!
//! Neither `find` nor the index takes memory to tell what runs.
//!
//! Follows: P4_16 Language Specification and v1model, this project's subset.
//!
//! Speed: a choice of exact keys takes one look, one of prefixes a look for each length from the longest
//! on, and one under masks goes from the highest priority on. Where keys do not fit into one number of 128
//! bits and are more than 16 numbers, or have other widths than the table's, the index does not tell
//! (`IsUntold`), and a choice is one walk over all entries.
#![tactic(auto)]

mod choice;
mod compare;
mod entry;
mod index;
mod signs;

pub use choice::find;
pub use compare::{are_for_keys, same_keys};
pub use entry::{Act, Chosen, Entry, Match, copy_entries, of_act, of_entry};
pub use index::{Index, first_fit, index_of, longest_act, priority_place};
pub use signs::{Signs, sign_of};
