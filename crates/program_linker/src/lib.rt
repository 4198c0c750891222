//! The linker: the linked programs of a network's switches, which are a forwarding program with the
//! monitor of a property in it.
//!
//! The layer above gets `link`, which answers a program for each switch, with the tables of control
//! variables and the telemetry's layout, or the first of five refusals. `specs/Linked` says what the
//! programs are; that they are a linkage, and more, is `IsPropertyLinked` of `linked_properties`. And it
//! gets `simplify_linked`, the same with answers of rules in the programs (`specs/Simpler`).
//!
//! Follows: "Hydra: Effective Runtime Network Verification", SIGCOMM 2023; P4_16 and v1model, this
//! project's subset.
#![tactic(auto)]

mod form;
mod linking;
mod parts;
mod programs;
mod simplifying;

pub use link_checks::LinkFault;
pub use linking::{Linked, link};
pub use simplifying::simplify_linked;
