//! The texts that a run writes: its reports and digests, the cells of its registers, its summary.
//!
//! The layers above get `reports_text`, `cells_text` and `summary_text`; `specs/Texts` says each text
//! byte by byte.
#![tactic(auto)]

mod rows;
mod texts;

pub use rows::{CellRow, Counts, ReportRow};
pub use texts::{cells_text, reports_text, summary_text};
