//! Indus properties that keep the rules of types, and their sums.
//!
//! The layer above gets `check_property`, which takes a property exactly where it breaks no rule, and
//! `TypedProperty`, whose invariant says so, so that nothing else makes one. Contracts see it as the
//! property. It answers the telemetry's bits, the weight and the reads of a control variable. `laws`
//! says what well-typedness says of a tree.
//!
//! The rules are those of `indus_rules`; `specs/Sums`, `Facts`, `Fits`, `StaticWidths` and `Views` are the words
//! of this crate.
//!
//! Follows: "Hydra: Effective Runtime Network Verification", SIGCOMM 2023; grammar, rules and sums are
//! this project's profile.
#![tactic(auto)]

mod bits;
mod fault;
pub mod laws;
mod lists;
mod names;
mod reads;
mod typed;
mod weight;

pub use fault::TypeFault;
pub use indus_rules::Rule;
pub use typed::{TypedProperty, check_property};
