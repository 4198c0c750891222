//! What P4 programs with other values do: the same.
//!
//! The crate has definitions and laws, and no code. The layers above get, for expressions that may stand
//! in the place of others (`MayStandFor` of `rewriting_laws`), the laws of `laws`: statements, calls,
//! actions and tables do the same in each run in which what is in sight shows what the scope of the
//! rules says (`Sees` of `specs/Sights`).
//!
//! Follows: P4_16 Language Specification, this project's subset. Whole passages are above.
#![tactic(auto)]

pub mod laws;
