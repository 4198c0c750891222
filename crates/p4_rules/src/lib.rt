//! The rules of names and types of P4, of whole programs.
//!
//! The layer above gets `check_rules`: the first broken rule of a program, if there is one, and what
//! is counted of it.
//!
//! What is tested is in `specs/Mains` and `Limits`, behind the specs of `p4_declaration_rules`, and
//! `ProgramRules` says which rules a program breaks.
//!
//! Follows: P4_16 (version 1.2.4) and its v1model architecture; the subset is this project's profile.
#![tactic(auto)]

mod limits;
mod mains;
pub mod rules;

pub use rules::{Checked, check_rules};
