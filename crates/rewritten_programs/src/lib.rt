//! P4 programs with other expressions in the place of those that are values.
//!
//! The crate has definitions and lemmas, and no code. The layers above get `ProgramRewritten` of
//! `specs/Rewritten` and what it says of each part of a program, for any relation of an expression to
//! what becomes of it. Its form says what is left alone: targets, receivers, headers, tests that apply a
//! table, constants, defaults and parsers.
//!
//! Follows: P4_16 Language Specification, this project's subset.
#![tactic(auto)]
