//! Linked trees are a linkage of the program that was given, with its exits.
//!
//! The crate has definitions and laws, and no code. A linker gets the linkage of its programs from what it
//! knows of the given one (`CanLink` of `specs/Trees`) and from what the lowering shows of its trees
//! (`IsLoweredFor`): the programs are the linked trees (`linked_trees`) of the program without exits and
//! with a struct for each role (`linked_form`).
//!
//! Follows: P4_16 and v1model, this project's subset; Hydra, "Hydra: Effective Runtime Network
//! Verification", SIGCOMM 2023.
//!
//! Not promised: that linked trees keep the rules of P4.
#![tactic(auto)]

mod laws;

pub use laws::{linked_form_is_given, linked_trees_are_a_linkage};
