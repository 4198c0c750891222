//! What paths stand for in P4 programs, and what expressions are.
//!
//! The layers above get `Scope`, the names in sight at a place: `declare` puts one into sight, `back`
//! takes those behind a mark out of it, `find` is what a path stands for, and `own` what an expression
//! is, whatever its place wants. `kind` has what places want of operands, `thing` what values and types
//! are and who may write them, `stands` what a path stands for and as what it may be used, `what` what
//! is declared.
//!
//! `specs/Kinds`, `Scopes`, `Uses` and `View` are read in this order. No rule is told here.
//!
//! Follows: P4_16 (version 1.2.4) and its v1model architecture; the subset is this project's profile.
#![tactic(auto)]

mod core_names;
mod entry;
pub mod kind;
mod resolved;
pub mod scope;
pub mod stands;
pub mod thing;
pub mod what;
