//! Linking a program with a whole property, in one law.
//!
//! The crate has definitions and laws, and no code. A linker gets, of a program and a property without
//! fault (`CanBeLinked` of `specs/Linked`), what holds of the linked programs of all switches
//! (`IsPropertyLinked`). `specs/Lib` has the order in which to read.
//!
//! Follows: P4_16 and v1model, this project's subset; Hydra, "Hydra: Effective Runtime Network
//! Verification", SIGCOMM 2023.
#![tactic(auto)]

mod laws;

pub use laws::{
    faultless_is_given, faultless_is_linked, found_fields_are_shown, found_views_are_words,
    room_is_counted, trees_keep_rules,
};
