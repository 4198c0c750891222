//! Schedules.
//!
//! The layers above get `read_schedule`, which reads a value as the events of a run, and beside it
//! `table_items`, which tests what the tables of control variables hold over a run. `specs/Sets` says
//! what a member sets, `Members` what members say, `Schedule` which events a schedule has and which
//! fault.
//!
//! A schedule is an array of packet numbers, each of which stands for both halves of a packet's
//! passage of a switch, of `{"enter": number}` and `{"leave": number}`, which stand for one half, and
//! of `{"set": {"switch": name, "variable": name, "value": contents}}`.
#![tactic(auto)]

mod fault;
mod member;
mod reading;
mod set;

pub use fault::ScheduleFault;
pub use reading::read_schedule;
pub use table_items::{TooMany, table_items};
