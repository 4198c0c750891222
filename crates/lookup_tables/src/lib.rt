//! The tables of a property's lookups, as they run.
//!
//! The crate has definitions and laws, and no code. `Tables` of `specs` says what they are, `Finding` what they do.
#![tactic(auto)]

mod laws;

pub use laws::{entries_are_contents, tables_find_what_is_looked_up};
