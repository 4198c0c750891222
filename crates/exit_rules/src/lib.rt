//! Programs without `exit` and `return` stay well typed.
//!
//! The layer above gets that a well-typed program whose names are all given ones is well typed without
//! exits (`specs/Laws`), and that what is counted of it stays the same. There is no code: each law is
//! the contract of a function that does nothing.
//!
//! Not here: what programs without exits mean, which `exit_statements` says of their parts.
//!
//! Follows: P4_16 Language Specification, this project's subset.
#![tactic(auto)]

mod laws;

pub use laws::{alone_stays, counts_stay, stays_well_typed};
