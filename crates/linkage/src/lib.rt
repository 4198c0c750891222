//! What it means that linked programs are a linkage of a forwarding program and a property, and the
//! law by which each linker shows it.
//!
//! The crate has definitions, and laws about them; no code links programs here. The layers above
//! get `Linkage`, a record with a field for each part of what linked programs show, and the law
//! `over_every_schedule`: whoever proves the laws of `HalvesLaws`, above all one on a linked enter
//! and one on a linked leave, has a linkage, in every valid world and after every number of steps.
//! `moved_networks_are_a_linkage` carries it to other machines that do the same there (`specs/Moves`).
//! The crate knows no language: the programs, the property and the telemetry are any that the laws
//! hold of. `specs/Linkage` is read first, and `HalvesLaws` and `Moves` after it.
//!
//! Follows: Hydra, "Hydra: Effective Runtime Network Verification", SIGCOMM 2023.
//!
//! Not promised: the form of the linked programs, which needs their trees.
#![tactic(auto)]

mod law;
mod moved;

pub use law::{
    LinkedHalves, LinkedNetwork, edges_stay_where_nothing_is_rejected, over_every_schedule,
};
pub use moved::{MovedHalves, MovedNetwork, moved_networks_are_a_linkage};
