//! Why what a file says of tables is refused.
//!
//! The layers above get `EntryFault`, why an entry or a default is none of a table, and `TableFault`,
//! why a file of entries or of the contents of control variables is refused, with the place of the
//! file that has the fault. The tables of a switch and the readers of both kinds of files share them.
#![tactic(auto)]

mod entry;
mod table;

pub use entry::EntryFault;
pub use table::TableFault;
