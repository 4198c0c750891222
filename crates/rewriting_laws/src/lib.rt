//! What may stand in the place of an expression of a P4 program.
//!
//! The crate has definitions and laws, and no code. The layers above get `MayStandFor` of
//! `specs/Standing`: an expression that can be spelled, that has a width of its own, that breaks no
//! rule and that has one value wherever the given one does so. It names no scope, so code can say it
//! of a result. The laws of `laws` carry it through all forms; `proofs/Closed` and `proofs/Refits` have
//! what a rule's own proof needs of expressions with a width of their own.
//!
//! Follows: P4_16 Language Specification, this project's subset.
#![tactic(auto)]

pub mod laws;
