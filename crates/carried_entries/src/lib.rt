//! What is loaded for a given program has its places in linked programs.
//!
//! The crate has definitions and laws, and no code. A command that loads entries for the given
//! program carries them into the linked program of each switch (`StandsIn` of `p4_tables`), and then
//! puts contents into the monitor's tables there (`IsMapOf` of `control_maps`). `specs/Lib` has the
//! order in which to read.
//!
//! Follows: P4_16 and v1model, this project's subset; Hydra, "Hydra: Effective Runtime Network
//! Verification", SIGCOMM 2023.
#![tactic(auto)]

mod laws;

pub use laws::{entries_have_places, monitor_tables_are_apart, monitor_tables_have_form};
