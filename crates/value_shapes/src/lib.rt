//! What the keys of a program's tables and the parameters of its actions hold.
//!
//! The layer above gets `values_of`: for each table, or for each action, in the order of the text, what
//! its keys or its parameters hold, by the rules' kinds of values (`specs/Values`).
//!
//! Follows: P4_16 Language Specification, this project's subset.
#![tactic(auto)]

mod values;

pub use values::{Holder, ValueShape, values_of};
