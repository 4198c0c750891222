//! Linked programs with other values do what a linker's programs do.
//!
//! The crate has definitions and laws, and no code. The layers above get, for linked programs of which
//! values have others in their place (`AreSimplyLinked` of `program_linker`), that the tables of the given
//! program and the contents of control variables can be loaded into them, and that passages, tables and
//! registers are those of a linker's programs (`specs/Laws`).
//!
//! Follows: P4_16 and v1model, this project's subset; Hydra, "Hydra: Effective Runtime Network
//! Verification", SIGCOMM 2023.
#![tactic(auto)]

mod laws;

pub use laws::{simply_linked_can_be_loaded, simply_linked_stand};
