//! Headers of P4 in numbered slots: extracted from frames, made valid or invalid, and emitted.
//!
//! The layers above get `take_fields`, which gives the slots of a header's fields their bits of a frame,
//! over `take_number`; `set_validity`, that is setValid and setInvalid; and `put_fields`, which writes the
//! bits of fields into bytes that are handed in, over `write_number`. Where a header is laid out
//! (`IsHeaderAt` of `specs/Headers`) the laws of `laws` say that slots that follow a store follow the
//! store behind each of these, and that what waits between the halves of a passage is the slots' own store.
//!
//! Follows: P4_16 Language Specification (`extract`, `emit`, `setValid`, `setInvalid`), this project's
//! subset.
//!
//! Whether a frame, or what is handed in, is long enough is tested by the caller. No call takes memory;
//! numbers go from and to bytes a byte at a time.
#![tactic(auto)]

mod bytes;
mod fields;
pub mod laws;
mod validity;
mod writing;

pub use bytes::take_number;
pub use fields::{put_fields, take_fields};
pub use validity::set_validity;
pub use writing::write_number;
