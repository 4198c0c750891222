//! What is sure of well-typed P4 programs: the rules and the meaning agree.
//!
//! The crate has definitions and laws, and no code. `specs/Places` says where a program uses names and
//! values; the files behind it say what holds at these places, and `laws` has each as a contract.
//!
//! Follows: P4_16 Language Specification and v1model, this project's subset.
#![tactic(auto)]

pub mod laws;
