//! Widths and truth values, as expressions of both languages have them.

ghost use Rattle.std.specs.Prelude.{◌≡◌, ◌≤◌};
ghost use Rattle.bit_values.specs.Widths.{bit, holds, either_width, sound_width};

use crate::Bits;

/// A truth value as one bit.
pub fn truth(is_true: bool) -> Bits
    ensures { result ≡ bit is_true }
{
    Bits::new(1, if is_true { 1 } else { 0 })
}

/// The truth value that a number is.
pub fn holds(b: Bits) -> bool
    ensures { result ≡ holds b }
{
    b.value == 1
}

/// The first width, or the second where the first is none.
pub fn either_width(v: u8, w: u8) -> u8
    ensures { result ≡ either_width v w }
{
    if v == 0 { w } else { v }
}

/// The width where a number can have it, else 128.
pub fn sound_width(w: u8) -> u8
    ensures value { result ≡ sound_width w }
    ensures wide { 1 ≤ result }
    ensures narrow { result ≤ 128 }
{
    if w == 0 || w > 128 { 128 } else { w }
}
