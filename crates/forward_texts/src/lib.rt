//! The texts of the digests and of the registers of a run of a program.
//!
//! The layers above get `digests_text`, a line for each digest, and `registers_text`, a line for each cell
//! that is not 0: by switches, then by the registers in the order of the program's text, then by index.
//! `specs/Rows` says which lines there are, and `Texts` of report_writer how a line is spelled. With
//! `put_text` a text goes behind other files.
#![tactic(auto)]

mod digests;
mod files;
mod registers;

pub use digests::{digest_text, digests_text, switch_name};
pub use files::put_text;
pub use registers::registers_text;
