//! Whole properties in P4, as monitors.
//!
//! The layer above gets the monitor of a well-typed property (`lower_monitor`), the law that it keeps all
//! laws of a monitor (`whole_properties_keep_the_laws`), and bounds on its tables and names. The crate
//! has definitions and laws, and no code. `specs/Lib` has the order in which to read.
//!
//! Follows: "Hydra: Effective Runtime Network Verification", SIGCOMM 2023; the names are this
//! project's profile.
#![tactic(auto)]

mod laws;
mod rows;

pub use laws::{
    numbers_are_few, tables_are_few, telemetry_is_linked, whole_properties_keep_the_laws,
};
pub use rows::a_property_is_lowered;
