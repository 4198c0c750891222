//! P4 programs of the same meaning without `exit` and `return`.
//!
//! The layer above gets `without_exits`: for a well-typed program of which no name begins with
//! `hydra_`, the program that does the same, with what stands in it of the given one
//! (`specs/Lowered`). It is well typed by a law, and nothing of it is tested a second time.
//!
//! Follows: P4_16 Language Specification, this project's subset.
#![tactic(auto)]

mod lowered;

pub use lowered::{lowers, without_exits};
