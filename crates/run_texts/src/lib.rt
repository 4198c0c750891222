//! The texts of a run of linked programs: the programs, their generated tables, reports, digests and
//! registers.
//!
//! The layer above gets `put_programs`, which puts the files of the programs behind others, and `put_linked`,
//! which puts those of their tables behind them (`put_own_linked` where the programs are not needed any more);
//! `reports_text` and `digests_text`, which part what switches
//! told, and `registers_text`; for the summary `rejected` and `reports`. `specs/Files` says which files a run
//! writes, and how its summary counts.
#![tactic(auto)]

mod counts;
mod linked;
mod programs;
mod registers;
mod tables;
mod told;

pub use counts::{rejected, reports};
pub use linked::{put_linked, put_own_linked};
pub use programs::put_programs;
pub use registers::registers_text;
pub use told::{digests_text, reports_text};
