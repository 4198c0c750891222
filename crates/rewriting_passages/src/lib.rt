//! Whole passages of P4 programs with other values: the same.
//!
//! The crate has definitions and a law, and no code. The layers above get, for expressions that may
//! stand in the place of others (`MayStandFor` of `rewriting_laws`), that both halves of a passage are
//! the same, and what of the program's parts is the same (`specs/Passages`).
//!
//! Follows: P4_16 Language Specification and v1model, this project's subset.
#![tactic(auto)]

mod laws;

pub use laws::passages_stay;
