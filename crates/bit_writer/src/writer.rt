//! What is written so far.

ghost use Rattle.std.specs.Prelude.{◌≡◌, ◌≤◌};
ghost use Rattle.bit_values.specs.Bytes.{bits_of};
ghost use Rattle.bit_writer.specs.Bytes.{bytes_of};
ghost use Rattle.bit_writer.specs.Pieces.{part_width};

use bit_values::Bits;

/// Whole bytes, and behind them the bits that are no whole byte yet.
#[derive(Drop)]
pub struct BitWriter {
    pub(crate) bytes: Vec<u8>,
    pub(crate) part: Option<Bits>,
    ghost few: { part_width part ≤ 7 },
    ghost whole: { bytes_of (bits_of bytes.items) ≡ bytes.items },
}
