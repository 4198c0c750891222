//! The headline, phrase by phrase, for every job of `run`.
//!
//! The crate has definitions and a law, and no code. `specs/Claims` says what is claimed of linked
//! programs, and `specs/Law` that it holds of a linker's programs, whatever the job. `specs/Lib` has the
//! order in which to read.
//!
//! Follows: Hydra, "Hydra: Effective Runtime Network Verification", SIGCOMM 2023.
#![tactic(auto)]

mod laws;

pub use laws::linked_programs_keep_the_claims;
