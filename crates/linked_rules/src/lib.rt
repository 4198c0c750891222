//! Linked programs follow the rules of P4.
//!
//! The crate has definitions and laws, and no code. The layer above gets that the linked program of a
//! well-typed program is well typed, over any lowering that keeps the promises of `specs/Passes`, with
//! what is counted of it (`specs/Fine`); that the names, actions, tables and registers of the given
//! program stand in it (`specs/Form`), with keys and parameters of the same kinds (`specs/Held`). The
//! order in which to read is that of `specs/Lib`.
//!
//! Follows: P4_16 and v1model, this project's subset; Hydra, "Hydra: Effective Runtime Network
//! Verification", SIGCOMM 2023.
#![tactic(auto)]

mod laws;

pub use laws::{
    linked_counts, linked_holds, linked_is_well_typed, linked_names_stand, linked_tells,
    linked_within, rules_can_be_kept, switches_count_alike, tables_stand,
};
