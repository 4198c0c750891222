//! What tables take: keys, and the actions of their lists.
//!
//! The layer above gets `Shape`, what one table takes, with its `KeyShape`s and `ActionShape`s; tests
//! of actions and their words (`has_action`, `takes`); and copies. `specs/Shapes` says what is taken.
//!
//! Follows: P4_16 Language Specification and v1model, this project's subset.
#![tactic(auto)]

mod shape;

pub use shape::{
    ActionShape, KeyKind, KeyShape, Shape, copy_shape, copy_values, copy_words, has_action, takes,
};
