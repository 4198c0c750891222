//! The reader of Indus expressions.
//!
//! The layers above get `expr`, `list_of` and `size`, the reader of the numbers of types. `expr`
//! gives what `specs/Reading` reads, which is what is spelled (`proofs/Complete`, `proofs/Sound`).
//!
//! Follows: "Hydra: Effective Runtime Network Verification", SIGCOMM 2023; the grammar is this
//! project's profile.
#![tactic(auto)]

mod chain;
mod found;
mod number;
mod operand;

pub use chain::{expr, list_of};
pub use found::{Found, FoundAll};
pub use number::size;
