//! Case files: which program, network, entries and captures belong together.
//!
//! The layers above get `read_case`, which reads a value as a case; `specs/Case` says how a case
//! file is written and which fault it has.
#![tactic(auto)]

mod case;
mod members;

pub use case::{Capture, Case};
pub use members::read_case;
