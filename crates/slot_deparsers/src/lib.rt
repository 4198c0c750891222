//! The deparser of a P4 program over numbered slots.
//!
//! The layers above get `emit_headers`, which writes the bits of the valid headers among those of some numbers
//! into bytes that are handed in; and `emit_rest`, which writes the bits that a parser did not consume behind
//! them, and says how many whole bytes that makes. The law of `laws` says that by the places of a program
//! these are the bits that its deparser emits.
//!
//! Follows: P4_16 Language Specification (`emit`), this project's subset.
//!
//! No call takes memory: there is to be room in the bytes for all headers, valid or not (`most_bits`).
#![tactic(auto)]

mod headers;
pub mod laws;
mod rest;

pub use headers::{emit_headers, most_bits};
pub use rest::emit_rest;
