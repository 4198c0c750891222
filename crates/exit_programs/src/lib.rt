//! P4 programs of the same meaning without `exit` and `return`: what they are (`specs/Programs`), and
//! what of them runs (`specs/Without`).
//!
//! The rewriting of statements, actions and tables is that of `exit_statements`; here it is that of
//! whole programs, by the names that are written. Its condition is that no name begins with `hydra_`
//! (`specs/Names`). `specs/Laws` says what holds of every program; there is no code, and each law is
//! the contract of a function that does nothing.
//!
//! Not here: that a program stays well typed (`exit_rules`), and that both halves of a passage are the
//! same (`exit_passages`).
//!
//! Follows: P4_16 Language Specification, this project's subset.
#![tactic(auto)]

mod laws;

pub use laws::{
    bound_stays, height_bounded, names_stand, none_is_left, parts_agree, size_bounded,
    stays_as_it_is,
};
