//! Tables of P4 programs with other values: what they take and hold is the same.
//!
//! The crate has definitions and a law, and no code. The layers above get, for expressions that may
//! stand in the place of others (`MayStandFor` of `rewriting_laws`), that actions and tables stand there
//! by the same numbers, and that before anything is loaded tables take and hold the same
//! (`specs/Tables`).
//!
//! Follows: P4_16 Language Specification and v1model, this project's subset.
#![tactic(auto)]

mod laws;

pub use laws::tables_stay;
