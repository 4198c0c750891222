//! Linked programs are a linkage of the program that was given, with its exits.
//!
//! The crate has definitions and a law, and no code. The layer above gets the linkage of a well-typed
//! program and a property from what can be shown of trees: that the programs of the switches have the
//! linked parts (`AreLinkedPrograms` of `specs/Given`), and that the program and its network are what
//! `IsLinkedHost` asks for.
//!
//! Follows: P4_16 and v1model, this project's subset; Hydra, "Hydra: Effective Runtime Network
//! Verification", SIGCOMM 2023.
//!
//! Not promised: the form of the linked programs.
#![tactic(auto)]

mod laws;

pub use laws::linked_programs_are_a_linkage;
