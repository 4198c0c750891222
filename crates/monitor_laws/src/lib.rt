//! What a lowering of a property gives the linker, and what it has to show of it.
//!
//! The crate has definitions and two traits, and no code. A lowering gives a `Monitor` (`specs/Monitor`)
//! and shows `MonitorLaws` (`specs/MonitorLaws`) of it; the layer above shows from these laws alone what
//! linked programs do.
//!
//! Follows: P4_16 and v1model, this project's subset; Hydra, "Hydra: Effective Runtime Network
//! Verification", SIGCOMM 2023.
#![tactic(auto)]

mod lowered;

pub use lowered::{LinkedMonitor, LoweredMonitor};
