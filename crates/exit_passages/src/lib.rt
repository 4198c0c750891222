//! Programs without exits do what the given ones do.
//!
//! The layer above gets `PassesSame` (`specs/Passages`): both halves of a passage are the same, for all
//! tables, registers, ports and frames. There is no code: each law is the contract of a function that
//! does nothing.
//!
//! Follows: P4_16 Language Specification, this project's subset.
#![tactic(auto)]

mod laws;

pub use laws::passes_agree;
