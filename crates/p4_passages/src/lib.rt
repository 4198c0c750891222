//! The two halves of a passage of a switch, on maps by name.
//!
//! The layers above get `enter` and `leave`, the two halves of a passage, on the parts of any program,
//! over what its tables hold (`Tables`) and the cells of its registers. Contracts say what each does as
//! `parts_enter` and `parts_leave` of the trees' meaning.
//!
//! Follows: P4_16 Language Specification and v1model, this project's subset.
//!
//! A program may be any tree, also an ill-typed one. Speed is not promised. After want of memory the
//! registers of a switch may have changed in part.
#![tactic(auto)]

mod gone;
mod halves;
mod passage;
mod start;
mod waiting;

pub use gone::Gone;
pub use passage::{enter, leave};
pub use start::start_cells;
pub use waiting::Waiting;
