//! Well-typed P4 programs with answers of rules in them.
//!
//! The layers above get `simplify`: a well-typed program in which each expression of a control that is a
//! value was offered to the rules, from the inside to the outside (`specs/Simplified`). That it is well
//! typed follows by a law, and is not tested again.
//!
//! Follows: P4_16 Language Specification, this project's subset. Nothing says that a program becomes
//! shorter: that rests on the rules.
#![tactic(auto)]

mod programs;

pub use programs::simplify;
