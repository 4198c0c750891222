//! What a passage of a P4 program does to numbered slots outside of its parser and its controls.
//!
//! The layers above get `start`, which makes the slots before the parser of whatever they held; `set_error`,
//! the parser's error behind it; `drops`, whether the packet is dropped; `turn`, what waits for egress; and
//! `port_of`, the port by which a packet leaves. The laws of `laws` say that by the places of a program
//! slots follow the stores that the trees' meaning has there, and that what waits for egress is the slots'
//! own store.
//!
//! Follows: P4_16 Language Specification and v1model (standard metadata), this project's subset.
//!
//! No call takes memory.
#![tactic(auto)]

pub mod laws;
mod metadata;

pub use metadata::{drops, port_of, set_error, start, turn};
