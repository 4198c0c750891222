//! The trees of a whole property, by the rules of P4.
//!
//! The layer above gets what a linker takes besides that the trees are the monitor's parts: they declare the
//! monitor's names alone (`trees_declare_their_own`); they break no rule in a linked program that has what
//! header variables read (`trees_pass`); and how many digests they tell, which are no more than the property
//! weighs (`trees_tell`, `trees_tell_few`), as the cells of their registers are, and their telemetry takes the
//! property's bytes (`trees_are_counted`). The crate has definitions and laws, and no code. `specs/Lib` has
//! the order in which to read.
#![tactic(auto)]

mod laws;

pub use laws::{
    trees_are_counted, trees_declare_their_own, trees_pass, trees_tell, trees_tell_few,
};
