//! The reader of Indus properties.
//!
//! The layers above get `read_property`: the tree that a text spells, or the first token at which no
//! tree goes on, or none within the limits. `specs/Faults` says what each answer means, and `laws`
//! that a text has one.
//!
//! Follows: "Hydra: Effective Runtime Network Verification", SIGCOMM 2023; the grammar is this
//! project's profile. Nothing is said of the rules of names and types.
#![tactic(auto)]

mod decl;
mod fault;
mod found;
pub mod laws;
mod read;
mod simple;
mod stmt;
mod types;

pub use fault::PropertyFault;
pub use found::{FoundBlock, FoundStmt};
pub use read::read_property;
