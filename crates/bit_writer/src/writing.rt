//! Writing bits.

ghost use Rattle.std.specs.Prelude.{◌≡◌, ◌≤◌, ◌<◌, ◌+◌, ◌++◌, ◌∷◌, [], drop, OnOk};
ghost use Rattle.std.specs.Int.{bit_at};
ghost use Rattle.bit_values.specs.Bits.{word};
ghost use Rattle.bit_values.specs.BitLists.{number_bits};
ghost use Rattle.bit_values.specs.Bytes.{bits_of};
ghost use Rattle.bit_writer.specs.Bytes.{bytes_of};
ghost use Rattle.bit_writer.specs.Pieces.{part_width, part_bits};
ghost use Rattle.bit_writer.specs.Written.{bits_in};

use crate::writer::BitWriter;
use bit_values::Bits;
use std::alloc::{AllocError, Global};

/// The bits of a part, and one bit more.
fn joined(part: Option<Bits>, bit: Bits) -> Bits
    requires few { part_width part ≤ 7 }
    requires one { bit.width ≡ 1 }
    requires small { bit.value < 2 }
    ensures bits { number_bits result.width result.value ≡ part_bits part ++ number_bits 1 bit.value }
    ensures more { result.width ≡ part_width part + 1 }
{
    match part {
        None => bit,
        Some(part) => part.concat(bit),
    }
}

/// The byte of eight bits.
fn byte_of(part: Bits) -> u8
    requires { part.width ≡ 8 }
    ensures value { result ≡ part.value }
    ensures small { result < 256 }
{
    part.value as u8
}

/// A bit of a number.
fn bit_of(value: u128, i: u8) -> Bits
    requires { i < 128 }
    ensures bit { result ≡ word 1 (bit_at value i) }
    ensures small { result.value < 2 }
{
    Bits::new(1, (value >> i) & 1)
}

impl BitWriter {
    /// No bits.
    pub fn new(alloc: Global) -> BitWriter
        ensures { bits_in result ≡ [] }
    {
        BitWriter {
            bytes: Vec::new(alloc),
            part: None,
        }
    }

    /// One bit more.
    fn push(&mut self, bit: Bits) -> Result<(), AllocError>
        requires one { bit.width ≡ 1 }
        requires small { bit.value < 2 }
        ensures { OnOk result (bits_in self.new ≡ bits_in self.old ++ number_bits 1 bit.value) }
    {
        let part = joined(self.part, bit);
        if part.width() == 8 {
            self.bytes.push(byte_of(part))?;
            self.part = None;
        } else {
            self.part = Some(part);
        }
        Ok(())
    }

    /// The lowest `width` bits of a number, the highest of them first.
    pub fn put(&mut self, width: u8, value: u128) -> Result<(), AllocError>
        requires { width ≤ 128 }
        ensures { OnOk result (bits_in self.new ≡ bits_in self.old ++ number_bits width value) }
    {
        for i in 0..width {
            self.push(bit_of(value, width - 1 - i))?;
        }
        Ok(())
    }

    /// Bytes.
    fn put_bytes(&mut self, bytes: &[u8]) -> Result<(), AllocError>
        ensures { OnOk result (bits_in self.new ≡ bits_in self.old ++ bits_of bytes.now) }
    {
        for b in bytes {
            self.put(8, *b as u128)?;
        }
        Ok(())
    }

    /// The bits of a byte and of those behind it, but for the first few.
    fn put_from(&mut self, byte: u8, bytes: &[u8], skip: u8) -> Result<(), AllocError>
        requires { skip ≤ 7 }
        ensures { OnOk result (bits_in self.new ≡ bits_in self.old ++ drop skip (bits_of (byte ∷ bytes.now))) }
    {
        self.put(8 - skip, byte as u128)?;
        self.put_bytes(bytes)?;
        Ok(())
    }

    /// The bits of bytes but for the first few.
    pub fn put_rest(&mut self, bytes: &[u8], skip: u8) -> Result<(), AllocError>
        requires { skip ≤ 7 }
        ensures { OnOk result (bits_in self.new ≡ bits_in self.old ++ drop skip (bits_of bytes.now)) }
    {
        match bytes {
            [] => Ok(()),
            [b, bytes @ ..] => self.put_from(*b, bytes, skip),
        }
    }

    /// The whole bytes.
    pub fn finish(self) -> Vec<u8>
        ensures { result.items ≡ bytes_of (bits_in self) }
    {
        self.bytes
    }
}
