//! What flat code means, and what it consists of: laws, and no code.
#![tactic(auto)]

pub mod laws;
