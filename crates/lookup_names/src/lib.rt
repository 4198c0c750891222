//! What a property's lookups are called in P4.
//!
//! The table of a lookup, its first action, and the variables that hold its key and what it finds. They
//! are shared by the tables of control variables and by the code that applies them.
#![tactic(auto)]

mod names;

pub use names::{action_name, found_name, key_name, table_name};
