//! What the run of a network keeps to, whatever its switches do.
//!
//! The crate has a definition and lemmas, and no code: no frame on a link or out by an edge port is
//! longer than it may be, and no more frames leave than packets come (`specs/Limits`). Whoever runs a
//! network cites `run_within` of `proofs/Within`; a clause cannot range over machines.
#![tactic(auto)]
