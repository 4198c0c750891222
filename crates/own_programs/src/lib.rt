//! Well-typed P4 programs are forwarding programs.
//!
//! The layer above gets what the laws of own code ask of a program's parts (`IsForwarding` of `own_code`)
//! from what can be tested of its text: no name is the monitor's, it has no `exit` and no `return`, and
//! it tells no reports. So it is of programs without exits too (`exit_programs`).
//!
//! Follows: P4_16 and v1model, this project's subset.
#![tactic(auto)]

mod laws;

pub use laws::own_programs_are_forwarding;
