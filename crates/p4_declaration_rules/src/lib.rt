//! The rules of names and types of P4, of declarations.
//!
//! The layer above gets `check_tops`: it adds what is tested of the declarations of a program to the
//! first broken rule so far (`Found` of `p4_statement_rules`), puts them into sight, and answers the
//! most digests that ingress and egress give. It goes on behind a broken rule; only where memory is
//! wanting it ends early, and then what was found and the names in sight are of no more use.
//! `declare_firsts` puts declarations into sight where of those of one name the first counts.
//! `declare_top` and `declare_local` put one into sight with no test. `has_twice`, `name_table` and
//! `is_in` are questions on names, and `way_access` says who may write a parameter.
//!
//! What is tested is in `specs/Declarations`, `Tables`, `Parsers`, `Controls` and `Firsts`, to be read
//! in this order behind `Digests`.
//!
//! Follows: P4_16 (version 1.2.4) and its v1model architecture; the subset is this project's
//! profile.
#![tactic(auto)]

pub mod controls;
mod declarations;
mod digests;
mod emits;
pub mod firsts;
pub mod names;
pub mod parsers;
mod tables;
mod transitions;
