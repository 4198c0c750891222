//! What expressions of Indus give, worked out on the tree, and the states that they read.
//!
//! The layers above get the states and views of the direct evaluator with what they hold at the
//! start, and `eval_expr`, which is exactly what `indus_tree` says that an expression means.
//! `specs/View` says what the states and views stand for. `indus_run` gets besides what blocks need
//! of the same: declarations and lists by names, widths and truth values.
//!
//! Follows: "Hydra: Effective Runtime Network Verification", SIGCOMM 2023, as `indus_tree` does.
//!
//! A property may break rules of types. Speed is not promised: names are looked up from the first
//! declaration on.
#![tactic(auto)]

mod copy;
mod names;
mod reads;
mod start;
mod state;
mod values;
mod words;

pub use names::{cells, seat, seats};
pub use reads::held_width;
pub use state::{ControlValue, Env, HopResult, HopView, Report, SensorState, TeleState};
pub use values::{eval_expr, own_width, value_of, values_of};
pub use words::{shape_size, word_at};
