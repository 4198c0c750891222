//! The linked program of a switch: the code that makes it.
//!
//! The layer above gets `linked`, the tree of `linked_programs`, word for word: the forwarding program
//! with the parts of a monitor in it, at their places.
//!
//! Follows: "Hydra: Effective Runtime Network Verification", SIGCOMM 2023; P4_16 and v1model, this
//! project's subset.
#![tactic(auto)]

mod around;
mod controls;
mod declarations;
mod lengths;
mod locals;
mod parsers;
mod roots;
mod statements;
mod two_structs;

pub use declarations::{Parts, linked};
pub use roots::control_roots;
pub use two_structs::parted;
