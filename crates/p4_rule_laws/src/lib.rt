//! Laws of the rules of P4: how what is tested of a program follows from what is tested of its parts.
//!
//! The layers that build programs from others, as linkers do, get with these laws that what they
//! build is well typed. `specs/Old`, `OldPrograms` and `Kept` say which names trees look up and what
//! declarations leave in sight, `Guards`, `Replaced` and `ReplacedPrograms` what is put around
//! statements and in the place of expressions, and `Laws` what holds; `Growth` and `Entered` say how
//! programs grow, and `GrowthLaws` what holds of it. There is no code: each law is the contract of a
//! function that does nothing.
//!
//! Follows: P4_16 (version 1.2.4) and its v1model architecture; the subset is this project's profile.
#![tactic(auto)]

pub mod growth;
pub mod laws;
