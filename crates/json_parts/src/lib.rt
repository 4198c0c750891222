//! JSON files: what their readers share.
//!
//! The layers above get `read_value`, which reads bytes as one value, exactly where they are one;
//! `Members`, which reads the members of an object in the byte order of their names; `list_of` and
//! `object_of`; and the paths by which a fault names its place. Definitions of files are written
//! with `specs/Answers`, `Turns` and `Object`, over values as trees (`specs/Trees`).
//!
//! Follows: RFC 8259, as `serde_json` reads it: of a member that stands twice the last counts.
#![tactic(auto)]

mod fault;
mod members;
mod names;
mod path;
mod reading;
mod trees;

pub use fault::{JsonFault, ShapeFault};
pub use members::Members;
pub use names::first_unknown;
pub use path::{item_path, member_path};
pub use reading::read_value;
pub use trees::{list_of, object_of};
