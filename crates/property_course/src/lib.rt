//! The file of a property as a step of a command.
//!
//! The layer above gets `load_property`, which keeps to the course `typed_property` of `specs/Files`: the
//! file is read, and its text spells a property, which breaks no rule of types. `Lines` has the lines of
//! refusals.
#![tactic(auto)]

mod files;

pub use files::load_property;
