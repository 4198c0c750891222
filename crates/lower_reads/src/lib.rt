//! What flat code reads, in the order in which it reads it.
//!
//! The layer above gets `stmt_reads`, what a statement reads before it does anything, each tree once;
//! `place_in`, where a tree stands among these; and `block_numbers`, the reads of a block with their
//! numbers and the declarations of what they read, found by a table of names (`Declarations`).
//!
//! Follows: "Hydra: Effective Runtime Network Verification", SIGCOMM 2023; names and forms are this
//! project's profile.
#![tactic(auto)]

mod declarations;
mod numbers;
mod reads;
mod same;

pub use declarations::Declarations;
pub use numbers::{Read, block_numbers, number_at};
pub use reads::{place_in, read_decl, stmt_reads};
