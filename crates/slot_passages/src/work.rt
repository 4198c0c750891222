//! What a passage works in.

use bit_values::Bits;

/// Room for a passage: a flag for each state of the parser, and the words of a table's keys.
#[derive(Drop)]
pub struct Work {
    pub passed: Vec<bool>,
    pub keys: Vec<Bits>,
}
