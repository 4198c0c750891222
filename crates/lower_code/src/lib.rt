//! Blocks of flat code in P4.
//!
//! The layer above gets `block_code`, the statements that do what a block does, by the names that a
//! control gives its parameters (`Roots`): before each statement what it reads, and then what it does;
//! and `checker`, which runs a block's code at the last hop.
//!
//! Follows: "Hydra: Effective Runtime Network Verification", SIGCOMM 2023; names and forms are this
//! project's profile.
#![tactic(auto)]

mod expressions;
mod read_code;
mod roots;
mod statements;
mod tree;
mod types;

pub use roots::Roots;
pub use statements::{Code, block_code, checker};
pub use types::{bits_type, key_types, value_type};
