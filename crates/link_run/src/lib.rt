//! What `link` writes: the linked programs of a network, and the tables in them that hold control
//! variables.
//!
//! The layer above gets `write_linked`, whose contract is the headline as far as nothing is run
//! (`specs/Headline`): what is written are linked programs of which all is claimed that is claimed of
//! those of `run`, for every job on the same property, program and network.
#![tactic(auto)]

mod output;

pub use output::write_linked;
