//! The cells of a switch's registers, and their text.
//!
//! The layers above get `switch_text`, a line for each cell that is not 0, by the registers in the order of
//! the program's text and then by index, of those registers that are meant (`Which`); `register_names`, how
//! registers are named; and `first_cell`. `specs/Rows` says which lines there are, and `Texts` of
//! report_writer how a line is spelled.
#![tactic(auto)]

mod cells;
mod names;
mod which;

pub use cells::{first_cell, switch_text};
pub use names::register_names;
pub use which::Which;
