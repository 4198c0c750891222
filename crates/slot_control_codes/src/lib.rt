//! The steps of a control's statements over numbered slots.
//!
//! The layers above get `stmts_steps` and `stmt_step`, which make the `Step`s of `slot_controls` of statements once, by the
//! places of the paths in sight and by what calls stand for: `Callees` in a control, and `Bare` where no action is called and
//! no table applied, as in an action, whose body is made by the same functions (`CallSteps`). What is made does what the
//! statements mean, and `specs/Known` says which statements have steps; and `act_of` and `asked_by`, what a call is for and
//! what a test asks of a table.
//!
//! Follows: P4_16 Language Specification and v1model, this project's subset. Each statement and each call has a step where
//! its paths have places; where they have none, `Fault::Unknown` says so. The body of an action is made anew at each call,
//! and at each application of a table that may run it, by the places in sight there.
#![tactic(auto)]

mod acts;
mod bodies;
mod callees;
mod calls;
mod externs;
mod statements;
mod sums;

pub use callees::{Applied, Bare, CallSteps, Callees};
pub use calls::{Act, act_of};
pub use statements::{Asked, asked_by, stmt_step, stmts_steps};
