//! Expressions, the parser and the deparser of a well-typed P4 program, each by itself.
//!
//! The layers above get `Fields`, what is in sight at one place of a program by the paths that are
//! written there; `eval`, the value of an expression at that place; `run_parser` and `run_deparser`;
//! and `csum16`, the checksum of RFC 1071. Contracts say each as the trees' meaning on the store that
//! `Fields` stands for (`specs/Sight`, `specs/Stores`).
//!
//! Follows: P4_16 Language Specification and v1model, this project's subset; RFC 1071.
//!
//! `eval` and `csum16` take no memory. A path is found by a walk over all paths, and each call of
//! `run_parser` and `run_deparser` builds what of the program runs anew.
#![tactic(auto)]

mod fields;
mod packet;
mod sight;
mod stores;

pub use fields::{Fields, StdMeta};
pub use p4_packets::ParserError;
pub use p4_values::csum16;
pub use packet::{run_deparser, run_parser};
pub use sight::eval;
