//! How much the code of a well-typed P4 program emits and tells, at the most.
//!
//! The layer above gets one law, `programs_are_bounded` (`specs/Bounds`): the deparser over slots emits
//! no more bytes than all headers of the program have, and, where no point stands in a name, a passage
//! gives no more digests than the rules count. `p4_slots` tests both when it makes a switch, and does
//! not rest on the law yet. There is no code: the law is the contract of a function that does nothing.
//!
//! Follows: P4_16 Language Specification and v1model, this project's subset.
#![tactic(auto)]

mod laws;

pub use laws::programs_are_bounded;
