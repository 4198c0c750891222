//! Whole properties in P4: the statements, tables, registers and variables that a linker takes.
//!
//! The layer above gets `lower`, over a property's flat code and layout. `specs/Trees` defines what it
//! gives, by the names that the two controls give their parameters.
//!
//! Follows: "Hydra: Effective Runtime Network Verification", SIGCOMM 2023; names and forms are this
//! project's profile.
#![tactic(auto)]

mod locals;
mod lowered;
mod numbered;
mod property;

pub use lower_code::Roots;
pub use lowered::Lowered;
pub use property::lower;
