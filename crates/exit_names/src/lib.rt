//! Ingress and egress of a well-typed P4 program use variables, actions and tables of their own alone.
//!
//! The layer above gets what the laws on programs without `exit` and `return` ask of a program
//! (`specs/Laws`): of each well-typed program whose names are plain and not kept for what is added.
//!
//! Follows: P4_16 Language Specification, this project's subset.
#![tactic(auto)]

mod laws;

pub use laws::controls_own;
