//! Indus properties as trees, and what they mean.
//!
//! The layers above get the tree types, the tree without pointers that each stands for, `copy` for
//! each, the declaration of a name, and the meaning: of expressions and blocks, and of a property as
//! the network law takes it. `network_run` says from that what the property does at a hop and on a
//! path.
//!
//! `specs/Tree`, `State`, `Start`, `Reads`, `Keys`, `Operators`, `Value`, `Meaning`, `Hops` and `Law`
//! are read in this order. `values_are_words` and `variables_keep_their_shapes` are laws of theirs.
//!
//! Follows: "Hydra: Effective Runtime Network Verification", SIGCOMM 2023; grammar and rules are this
//! project's profile. The meaning is total, also on trees that break a rule of types. Nothing is said
//! of texts.
#![tactic(auto)]

mod copy;
mod laws;
mod names;
mod tree;

pub use laws::{values_are_words, variables_keep_their_shapes};
pub use names::find;
pub use tree::{Decl, DeclKind, Expr, Op, Property, Shape, Stmt, Ty};
