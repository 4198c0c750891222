//! Which states of a parser can reach themselves.
//!
//! The layer above gets `on_cycles`: for each state of a parser, whether one step or more lead from
//! it back to it. What leads where is a matter of names: a name that is no state's leads nowhere,
//! and states of one name lead wherever one of them does. `laws` has what is known of the test.
//!
//! One search goes over each state and each transition once, and takes the graph apart into its
//! strongly connected components.
//!
//! Follows: P4_16 Language Specification, this project's subset.
#![tactic(auto)]

pub mod laws;
mod search;
mod states;

pub use states::on_cycles;
