//! Files of the contents of control variables.
//!
//! The layers above get `load_control`, which reads a value as the contents of all control variables
//! at all switches, and `contents_before`, what they hold before; `read_contents`, which reads those of
//! one variable, and `variable_of`, the control variable of a name. `specs/Keys` and `Contents` say how
//! contents are written and which fault they have, `Control` what a file sets and what stays 0, false or
//! empty.
//!
//! A file is `{switch: {variable: contents}}`. Contents are a value, an array of keys, or an array of
//! `[key, value]`; a key of several parts is an array of values.
#![tactic(auto)]

mod contents;
mod file;
mod keys;
mod variables;

pub use file::{contents_before, load_control, read_contents};
pub use variables::{Variable, variable_of};
