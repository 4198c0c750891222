//! New contents of a control variable of a switch.
//!
//! The layer above gets `set_variable`, which puts contents into all tables of a variable, of any switch that
//! passes frames (`Pass`). Its tables are handed in as a map by numbers (`Mapped`), which contracts see as the
//! map of `control_maps` (`specs/Maps`); all other tables hold what they held (`specs/Others`), also where
//! memory runs out.
#![tactic(auto)]

mod setting;

pub use setting::{Mapped, set_variable};
