//! P4 programs with other values break no rule where the given ones break none.
//!
//! The crate has definitions and laws, and no code. The layers above get, for expressions that may stand
//! in the place of others (`MayStandFor` of `rewriting_laws`), the laws of `laws`: such a program stays
//! well typed, its counts stay, and it can be spelled where the given one can; `proofs/Calls` has what is known of a
//! call's arguments by what is called.
//!
//! Follows: P4_16 Language Specification, this project's subset. What programs mean is said elsewhere.
#![tactic(auto)]

pub mod laws;
