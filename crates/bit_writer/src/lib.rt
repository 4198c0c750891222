//! Bits written one behind the other, as bytes.
//!
//! The layers above get `BitWriter`, which takes numbers of stated widths and bytes, and gives whole
//! bytes; and the words for the bits of words and the bytes of bits.
//!
//! It takes time in the bits that are written. After want of memory some of them may be written.
#![tactic(auto)]

mod writer;
mod writing;

pub use writer::BitWriter;
