//! What makes the switches of a run.
//!
//! The layers above get `Bench`, from which a run has each of its switches, and `SwitchBench`, whose switches are `Switch` of
//! `p4_machine`. A bench is handed each program that a run executes, in the order of the network's switches: by `build`, or by
//! `another` where a switch runs the program of an earlier one. `StoppingBench` is for tests: it keeps the texts of what it is
//! handed, and one of its switches runs out of memory where it is told to.
#![tactic(auto)]

mod bench;
mod stopping;

pub use bench::{Bench, SwitchBench};
pub use stopping::{StoppingBench, StoppingSwitch};
