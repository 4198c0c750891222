//! The registers of a property's sensors.
//!
//! The layer above gets `register_for`, the register in which a switch keeps a sensor, and
//! `cell_value`, by which a cell holds a value: a cell holds the value xor the initial one, so that
//! cells that are 0 hold initial values.
//!
//! `specs/Registers` defines the register, and `laws` says that cells are read back.
//!
//! Follows: "Hydra: Effective Runtime Network Verification", SIGCOMM 2023; the names are this
//! project's profile.
#![tactic(auto)]

pub mod laws;
mod registers;

pub use registers::{cell_value, register_for};
