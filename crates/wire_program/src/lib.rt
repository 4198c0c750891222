//! The wire program, built in: a P4 tree that passes frames along a line of switches.
//!
//! The layers above get `wire_program`, the tree, whose definition is `specs/WireProgram`, and the network
//! in which it runs, three switches in a line (`specs/Network`). The definition has a frame for programs
//! that differ from it in what they declare and in their controls' bodies (`in_frame`).
//!
//! Follows: P4_16 and v1model, this project's subset.
#![tactic(auto)]

mod program;

pub use program::wire_program;
