//! The linked program of a switch can be loaded.
//!
//! The crate has definitions and laws, and no code. `loaded` of `loaded_tables` asks that the rows of a
//! map are a map of the linked program's tables, and that none of these is a table of the given program.
//! It holds for each program that a property can be linked with, and for the map that the property
//! lowers to (`specs/Starts`). Contents are not spoken of here.
//!
//! Follows: P4_16 and v1model, this project's subset; Hydra, "Hydra: Effective Runtime Network
//! Verification", SIGCOMM 2023.
#![tactic(auto)]

mod laws;

pub use laws::linked_can_be_loaded;
