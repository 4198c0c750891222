//! Statements of P4 of the same meaning without `exit` and `return`.
//!
//! The layer above gets a rewriting of statements (`specs/Without`) and of the actions and the bodies
//! of controls whose names stand for what they name (`specs/Actions`, `specs/Controls`), and the laws
//! of it, for all tables, registers and stores. Two flags say what has been left; what stands behind a
//! statement that may leave runs where its flag is not set. Guards are flat, so that what cannot leave
//! stays as it is. `specs/Written` and `specs/WrittenActions` say it of what is written, where names
//! do not stand for what they name yet, and `specs/Bounds` what grows, and by how much at most.
//!
//! Not here: code that rewrites a program, and that the program stays well typed.
//!
//! Follows: P4_16 Language Specification, this project's subset.
#![tactic(auto)]

mod laws;

pub use laws::{
    actions_agree, bounds_agree, calls_agree, declare_same, enters_agree, heights_bounded,
    leaves_agree, lists_agree, names_agree, none_is_left, sizes_bounded, stay_same,
};
