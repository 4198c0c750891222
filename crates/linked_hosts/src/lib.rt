//! Which programs are linked: well-typed ones, by the rules of P4.
//!
//! The crate has definitions and laws, and no code. The layer above gets from what is known of a program
//! that is read and typed (`IsGiven` of `specs/Linkable`) that its linked programs have the linked parts
//! and are what the law of linkage is about (`IsLinked`), for every lowering that keeps its promises, and
//! that they can be spelled (`specs/Spelled`).
//!
//! Follows: P4_16 and v1model, this project's subset.
//!
//! Not promised: that linked programs keep the rules of P4.
#![tactic(auto)]

mod laws;

pub use laws::{
    linkable_has_own_roots, linked_has_parts, linked_is_host, linked_is_spelled,
    well_typed_is_linkable,
};
