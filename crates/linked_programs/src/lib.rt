//! The linked program of a switch, as a tree: what a monitor adds to a forwarding program, and where.
//!
//! The crate has definitions and laws, and no code. A lowering gives its trees as the record of
//! `specs/Lowered`, and promises that they are its monitor's parts (`specs/Gives`) and can be spelled
//! (`specs/Spells`). The layer above gets the linked tree (`linked` of `specs/Linked`), what of it runs
//! (`specs/Woven`), and that it can be spelled.
//!
//! Follows: P4_16 and v1model, this project's subset; Hydra, "Hydra: Effective Runtime Network
//! Verification", SIGCOMM 2023.
//!
//! Not promised: that linked programs keep the rules of P4.
#![tactic(auto)]

mod laws;

pub use laws::{linked_can_be_spelled, parts_are_linked, promises_can_be_kept};
