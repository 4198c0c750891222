//! How many items the tables of a property's control variables hold, and whether they are too many.
//!
//! The layer above gets `table_items`, which takes no memory. `specs/Items` says how many items
//! contents have, how many each switch has to hold, and which number is too large.
#![tactic(auto)]

mod fault;
mod greatest;
mod sums;

pub use fault::TooMany;
pub use sums::table_items;
