//! The tables of a property's control variables.
//!
//! The layer above gets `table_for`, the table and its first action for one lookup of a control
//! variable, and `contents_for`, what the table holds where the variable has these contents.
//! `ControlMap` lists tables with their controls and variables.
//!
//! `specs/Tables` and `Contents` define both, and `laws` says that what a table chooses on a key is
//! the lookup of the contents.
//!
//! Follows: "Hydra: Effective Runtime Network Verification", SIGCOMM 2023; the names are this
//! project's profile.
#![tactic(auto)]

mod contents;
pub mod laws;
mod tables;

pub use contents::contents_for;
pub use tables::{ControlMap, table_for, value_width};
