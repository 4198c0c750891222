//! A run before its first event: the network of the linked programs.
//!
//! The layer above gets `start`, which makes of a job of `run` the net whose switches run the linked
//! programs, each with its tables loaded: those of the given program as the job's entries leave them, and
//! the generated ones with the contents of their control variables. `specs/First` says what the net
//! stands for, and what is known of each switch.
//!
//! Want of memory alone is a reason for an error.
#![tactic(auto)]

mod machines;
mod starting;
mod tables;

pub use starting::{Started, start};
