//! The packet's length in a linked program.
//!
//! The crate has definitions and laws, and no code. On links a packet is longer, by its telemetry. So
//! in a linked program own code and the monitor's read, in the place of `packet_length`, a field of
//! the metadata in which the parser puts the length without telemetry. The layers above get the
//! rewriting of expressions, statements, actions, tables and parser states (`specs/Lengths`), and the
//! law that rewritten code does what the code does with that length.
//!
//! Follows: P4_16 and v1model, this project's subset.
//!
//! Not promised: that the field holds that length, which is the parser's part.
#![tactic(auto)]

pub mod laws;
