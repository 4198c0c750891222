//! What names stand for in Indus properties, and what expressions are.
//!
//! The layer above gets `Scope`, which is what is in sight at a place: `role` is what a name stands for
//! there, and `own` what an expression is, whatever its place wants. `kind` has what places want of
//! operands, `uses` as what a name may be used, and `Declared::find` is the declaration of a name.
//! `loops::enter` goes into a loop and `loops::leave` comes out; the names of the items around are in a
//! table.
//!
//! `specs/Kinds`, `Scopes`, `Uses`, `Sights` and `Items` are read in this order. No rule is told here.
//!
//! Follows: "Hydra: Effective Runtime Network Verification", SIGCOMM 2023; grammar and rules are this
//! project's profile.
#![tactic(auto)]

pub mod declared;
pub mod kind;
pub mod loops;
pub mod scope;
pub mod sight;
pub mod uses;
