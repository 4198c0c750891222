//! Flat code of properties in P4.
//!
//! The layer above gets the code of a block (`block_code`), the variables and lookups that it declares
//! (`block_vars`, `block_lookups`), and a law: the code does to a run what the block does to the state
//! for which the run stands. The crate has definitions and laws, and no code.
//!
//! `specs/Lib` has the order in which to read. What the application of a lookup's table does is a
//! premise of the law (`AreServed`).
//!
//! Follows: "Hydra: Effective Runtime Network Verification", SIGCOMM 2023; the names are this
//! project's profile.
#![tactic(auto)]

mod laws;

pub use laws::code_does_what_its_block_does;
