//! What the commands that run a network read of a case: the program, the network and the captures.
//!
//! The layer above gets `load_ground`, the program, the network and where the captures enter it, and
//! `load_packets`, the packets of the captures. Each keeps to a course of `specs/Course`. The case's
//! own file is read by `network_course`.
#![tactic(auto)]

mod packets;
mod start;

pub use packets::{Packets, load_packets};
pub use start::{Ground, load_ground};
