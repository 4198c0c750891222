//! The reader of P4 programs.
//!
//! The layers above get `read_program`: the tree that a text spells, or the first token at which no
//! tree goes on, or none within the limits. Where that token is of a part of P4 that this subset
//! leaves out, the refusal says so. `specs/Faults` says what each answer means, and `laws` that a text
//! has one.
//!
//! Follows: P4_16 Language Specification, grammar, this project's subset. Nothing is said of the rules
//! of names and types.
#![tactic(auto)]

mod control;
mod decl;
mod fault;
mod found;
mod items;
pub mod laws;
mod parser;
mod program;
mod read;
mod table;

pub use fault::ProgramFault;
pub use found::FoundProps;
pub use items::{Item, Items};
pub use read::read_program;
