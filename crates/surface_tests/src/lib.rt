//! The public surface of numbers, the outside, texts, both languages, switches, files, monitors and
//! networks that run: each public call by its path, with the types of its arguments and of its answer,
//! each public type with its fields or variants. A change of one of them does not compile here.
//!
//! What stands behind `never` is compiled and does not run. What a call answers is shown by the rows of
//! the other crates of tests.
#![tactic(auto)]

pub mod files;
pub mod monitors;
mod never;
pub mod numbers;
pub mod outside_world;
pub mod programs;
pub mod properties;
pub mod switches;
pub mod texts;
