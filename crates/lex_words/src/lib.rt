//! Tokens as grammars see them.
//!
//! The readers above get `Cursor`, the tokens of a text and the place of the next: it tells which
//! of `Key`, the reserved words and marks of both languages, stands there, and reads keys, names and
//! numbers. Contracts see it as a list of lexemes (`specs/Seen`) and a place, and say by `Moves` of
//! `specs/Moving` what was read. The printers get the laws that a text of lexemes is read back as
//! these lexemes (`specs/Written`, `laws`).
//!
//! What is common to readers, of whatever grammar, stands here too: `Halt`, the definitions of
//! `specs/Reading`, and what an answer says of the text (`specs/Faults`); in `proofs` what a reading
//! rests on (`Locality`), what it says of the lexemes (`Spelled`), and that a reader with these laws
//! answers so (`Whole`, `OneAnswer`).
//!
//! Follows: P4_16, lexical structure, this project's subset.
#![tactic(auto)]

mod cursor;
mod halt;
mod key;
pub mod laws;
mod seen;

pub use cursor::Cursor;
pub use halt::Halt;
pub use key::{Key, mark, reserved};
pub use seen::{is_inclusion, is_key, is_named, is_text, key_at, name_at, number_at};
