//! The cells of a register.
//!
//! The layers above get `Cells`. Contracts see it as the list of its words.
//!
//! Follows: P4_16's v1model architecture (`register`), this project's subset.
#![tactic(auto)]

mod cells;

pub use cells::Cells;
