//! The rules of types of Indus properties.
//!
//! The layer above gets `first_fault`, the first broken rule of a property with its place, and the
//! definition that it keeps: `specs/Rules` has one test for each rule, over the places that
//! `specs/Sites` lays out with what each place wants. They are read in this order, behind the specs of
//! `indus_scopes`.
//!
//! Follows: "Hydra: Effective Runtime Network Verification", SIGCOMM 2023; grammar and rules are this
//! project's profile.
#![tactic(auto)]

mod check;
mod decl_rules;
mod expr_rules;
mod property;
mod rule;
mod stmt_rules;

pub use property::first_fault;
pub use rule::Rule;
