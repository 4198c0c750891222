//! Properties that texts spell declare plain names: a law, and no code.
#![tactic(auto)]

pub mod laws;
