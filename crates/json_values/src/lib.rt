//! Values in JSON files: numbers of a stated width, and truth values.
//!
//! The layers above get `read_word`, the word that a value is in its place, and what the readers of
//! files of tables and of contents share: `list_at` and `object_at`, a value as an array or as an
//! object, the faults `value_refused` and `shape_refused` at a path, and `in_table`, which makes a
//! fault of a value's form one of theirs. `specs/Texts` says which texts are numbers, `specs/Words`
//! which values are words, and `laws` that a text without dots and colons is a number exactly where
//! it is one of both languages, without a width.
//!
//! Follows: RFC 8259 as `serde_json` reads it; P4_16 for numbers in texts. Addresses are written as
//! IPv4's are, in dots, and as those of IEEE 802, by hexadecimal digits and colons.
#![tactic(auto)]

mod address;
mod digits;
mod fault;
pub mod laws;
mod refused;
mod word;

pub use fault::in_table;
pub use refused::{list_at, object_at, shape_refused, value_refused};
pub use word::{WordKind, read_word, word_of};
