//! Programs whose headers and metadata are one struct, with two.
//!
//! The crate has definitions and laws, and no code. A linker puts fields of its own into both structs, so
//! that each role needs one. A program with one for both has no field in it, since a struct of headers
//! holds headers and metadata hold single values; with a new empty struct for its metadata (`parted` of
//! `specs/Parted`) it is one that is linked, its passages are the same, and so is what is counted of it
//! for a switch's limits (`specs/Laws`).
//!
//! Follows: P4_16 and v1model, this project's subset.
#![tactic(auto)]

mod laws;

pub use laws::{parted_counts_same, parted_has_same_parts, parted_is_given, without_exits_is_free};
