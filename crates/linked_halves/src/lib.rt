//! What the two halves of a linked program do, for every forwarding program and every monitor.
//!
//! The crate has definitions and laws, and no code. The layers above get `linked_parts`, the linked
//! program's parts for any forwarding program and any monitor, and the laws that the linked programs of a
//! network keep the laws of the two halves and are a linkage. It stands on a law of a linked enter and a
//! law of a linked leave, between which other events may come, and knows of a monitor nothing but
//! `MonitorLaws`.
//!
//! Follows: P4_16 and v1model, this project's subset; Hydra, "Hydra: Effective Runtime Network
//! Verification", SIGCOMM 2023.
//!
//! Not promised: `return` and `exit`, in actions neither.
#![tactic(auto)]

mod laws;

pub use laws::{monitored_halves_agree, monitored_parts_are_a_linkage, views_have_their_widths};
