//! The reader of P4 expressions.
//!
//! The layers above get `expr`, and for types and paths `scalar`, `small` and `names`. `expr` gives
//! what `specs/Reading` reads; of lexemes that are one expression as a whole, that is what they spell
//! (`laws`). What is read or faulted in longer lists is in `proofs/Sound`, and what may stand behind an
//! expression in `proofs/Complete` and `proofs/Behind`.
//!
//! Follows: P4_16 Language Specification, grammar, this project's subset.
#![tactic(auto)]

mod chain;
mod found;
pub mod laws;
mod operand;
mod paths;
mod types;

pub use chain::expr;
pub use found::Found;
pub use paths::{more_names, names};
pub use types::{scalar, small};
