//! The programs of switches, as the run of a network takes them.
//!
//! The crate has definitions, and no code: `machine_of` makes of a program at each switch, and of what a
//! property's header variables read, a machine of the network's run; `machine_with` also of tables that
//! hold the contents of control variables.
//!
//! Follows: P4_16 and v1model, this project's subset.
#![tactic(auto)]
