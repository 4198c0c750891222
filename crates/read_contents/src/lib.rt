//! What files of contents and schedules say fits the property.
//!
//! The crate has definitions and laws, and no code. `specs/Fits` says which contents and which events fit a
//! property: contents have the shape that is declared for their variable, their values fit into their bits,
//! and no two keys are equal. `specs/Laws` says that all contents and events that are read for a well-typed
//! property do, and so does what a variable holds until it is set.
//!
//! Follows: Hydra, "Hydra: Effective Runtime Network Verification", SIGCOMM 2023.
#![tactic(auto)]

mod laws;

pub use laws::{contents_fit, files_fit, schedules_fit};
