//! Whether a program can be linked with a property: the five refusals.
//!
//! The layer above gets `check_link`, which answers the layout and the flat code of a property where there
//! is no refusal. `specs/Refusals` and `Faults` of `link_faults` say which refusal there is.
//!
//! A call walks the program twice, once for what header variables read and once for its names.
//!
//! Follows: "Hydra: Effective Runtime Network Verification", SIGCOMM 2023; the names that are taken are
//! this project's.
#![tactic(auto)]

mod fault;
mod fields;
mod first;
mod names;
mod refusals;
mod text;

pub use fault::LinkFault;
pub use refusals::check_link;
