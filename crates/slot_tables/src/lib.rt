//! The tables of a switch, as a passage over numbered slots asks them.
//!
//! The layers above get `SlotTables`, which asks a `TableState` what the table of a number chooses, without memory,
//! and the law `tables_choose`: what is chosen by numbers is what tables that hold this choose by names.
//!
//! Follows: P4_16 Language Specification and v1model, this project's subset.
#![tactic(auto)]

mod choices;
pub mod laws;

pub use choices::SlotTables;
