//! What P4 programs mean.
//!
//! The crate has definitions and laws, and no code. The layers above get the meaning of expressions,
//! statements, parsers, deparsers, tables and the two halves of a pass, each a function on trees and
//! stores (`specs/`), and laws of it (`laws`).
//!
//! Follows: P4_16 Language Specification and v1model, this project's subset; RFC 1071. Every tree has
//! a meaning, an ill-typed one too.
#![tactic(auto)]

pub mod laws;
