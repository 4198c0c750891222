//! The direct evaluator of Indus: what blocks and hops do, worked out on the tree.
//!
//! The layers above get `run_block`, which is exactly what `indus_tree` says that a block means, and
//! `hop_step`, which is exactly the two parts of the network law at a hop, on the states and views of
//! `indus_values`; and tests of what they need: states of the declared shape, and short reports.
//!
//! Follows: "Hydra: Effective Runtime Network Verification", SIGCOMM 2023, as `indus_tree` does.
//!
//! A property may break rules of types, but a report has at most eight values. Speed is not
//! promised.
#![tactic(auto)]

mod hop;
mod run;
mod shape;

pub use hop::hop_step;
pub use run::run_block;
pub use shape::{has_short_reports, is_shaped};
