//! Why a program is not linked with a property.
//!
//! The crate has definitions and laws, and no code. A linker gives the refusal that `link_fault` of
//! `specs/Faults` says, and links where there is none; `specs/Causes` says where each comes. What it gives
//! that there is none is said by `faultless_programs`.
//!
//! Follows: Hydra, "Hydra: Effective Runtime Network Verification", SIGCOMM 2023.
#![tactic(auto)]

mod laws;

pub use laws::{
    faults_have_causes, no_fault_says, none_is_taken, none_tells, tables_name_nothing_new,
};
