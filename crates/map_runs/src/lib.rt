//! The map of a switch's control variables does what the monitor's own tables do.
//!
//! The crate has definitions and laws, and no code. A run's switches are loaded and set by a map from
//! full names (`map_controls` of `control_maps`), and the linkage speaks of the controls of the monitor
//! that a property lowers to (`lower_monitor` of `whole_properties`). Where contents have the shapes of
//! their variables, both are the same. `specs/Lib` has the order in which to read.
//!
//! Follows: Hydra, "Hydra: Effective Runtime Network Verification", SIGCOMM 2023.
#![tactic(auto)]

mod laws;

pub use laws::{loads_agree, numbers_are_lookups, runs_agree, sets_agree};
