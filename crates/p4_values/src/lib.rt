//! The values of P4 expressions, and names.
//!
//! The layers above get `value_of` and what goes with it, over anything that tells what is in sight
//! (`Sight`): the words of paths, and which headers are valid. `Nowhere` is a sight in which nothing
//! is declared. Besides, names and paths: whether two are the same, copies, and parts; and `csum16`,
//! the checksum of bytes.
//!
//! Follows: P4_16 Language Specification, this project's subset; RFC 1071. Every tree has a value, an ill-typed
//! one too.
#![tactic(auto)]

mod checksum;
mod names;
mod sight;
mod value;
mod widths;

pub use checksum::csum16;
pub use names::{copy_path, field_path, parent, path_of_one, path_of_two, same_path, same_text};
pub use sight::{Nowhere, Sight};
pub use value::{is_true, start_of, value_of, values_of};
pub use widths::width_of;
