//! The trees of a whole property are the parts of its monitor.
//!
//! What a property lowers to is written by the names that two controls give their parameters, and runs with
//! what these names stand for in their place. The layer above gets the promise on trees that a linker takes
//! (`trees_are_the_monitor`): under each scope in which a control of a linked program can stand, the trees
//! are the statements, variables, actions and tables of the property's monitor, and its header type and
//! registers are the monitor's. The crate has definitions and laws, and no code. `specs/Lib` has the order
//! in which to read.
#![tactic(auto)]

mod laws;

pub use laws::{code_is_what_runs, trees_are_the_monitor, trees_can_be_spelled};
