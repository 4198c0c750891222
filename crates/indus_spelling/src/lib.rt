//! Which lists of lexemes spell an Indus property.
//!
//! The layers above get the relations of `specs/Expressions`, `Declarations` and `Properties`: one
//! for each nonterminal of the grammar, with one case for each production; and `join_of`, the
//! binary operators with their levels.
//!
//! Follows: "Hydra: Effective Runtime Network Verification", SIGCOMM 2023; the grammar is this
//! project's profile. Nothing is said of what a reader answers.
#![tactic(auto)]

pub mod laws;
mod operator;

pub use operator::{Join, join_of};
