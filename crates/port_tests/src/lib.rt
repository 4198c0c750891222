//! Tests of ports in a linked program: whether a field holds none of the ports with links, and the
//! cases of a parser that asks by which port a frame came. All places are 0.
//!
//! Follows: P4_16 and v1model, this project's subset.
#![tactic(auto)]

mod cases;
pub mod laws;
mod ports;

pub use cases::link_cases;
pub use ports::none_of;
