//! Numbers into bytes, a byte at a time.

ghost use Rattle.std.specs.Prelude.{◌≡◌, ◌≤◌, ◌<◌, ◌+◌, ◌-◌, ◌*◌, ◌/◌, ◌%◌, ◌^◌, ◌++◌, length, take, drop};
ghost use Rattle.bit_values.specs.Bits.{cast, shr};
ghost use Rattle.bit_values.specs.BitLists.{number_bits};
ghost use Rattle.bit_values.specs.Bytes.{bits_of, HoldsAt, SameOutside};

/// The `width` bits of a number from bit `low` on, counted from the lowest one.
#[inline(always)]
fn bits_from(number: u128, low: u8, width: u8) -> u8
    requires low { low < 128 }
    requires narrow { width ≤ 8 }
    ensures value { result ≡ cast width (shr number low) }
    ensures in_range { result < 2 ^ width }
{
    ((number >> low) & (255u128 >> (8 - width))) as u8
}

/// Writes the bits of a number into `width` bits of one byte, from bit `at` of the bytes on, and leaves
/// all others.
#[inline(always)]
fn write_part(buffer: &mut [u8], at: usize, width: u8, part: u8)
    requires wide { 1 ≤ width }
    requires one { at % 8 + width ≤ 8 }
    requires within { at + width ≤ 8 * length buffer.old }
    requires in_range { part < 2 ^ width }
    ensures bits { HoldsAt buffer.new at width part }
    ensures others { SameOutside buffer.old buffer.new at width }
{
    let low = 8 - (at % 8) as u8 - width;
    let mask = (255u8 >> (8 - width)) << low;
    let byte = at / 8;
    buffer[byte] = (buffer[byte] & !mask) | (part << low);
}

/// Writes the lowest `width` bits of a number, the highest of them first, into the bits from bit `at` of
/// the bytes on, part by part.
fn write_parts(buffer: &mut [u8], at: usize, width: u8, number: u128)
    requires wide { 1 ≤ width }
    requires narrow { width ≤ 128 }
    requires short { length buffer.old < 2 ^ 29 }
    requires within { at + width ≤ 8 * length buffer.old }
    ensures bits { HoldsAt buffer.new at width number }
    ensures others { SameOutside buffer.old buffer.new at width }
{
    let open = 8 - (at % 8) as u8;
    if width <= open {
        write_part(buffer, at, width, bits_from(number, 0, width));
        return;
    }
    let mut left = width - open;
    write_part(buffer, at, open, bits_from(number, left, open));
    let mut end = at + open as usize;
    while left >= 8 {
        left -= 8;
        write_part(buffer, end, 8, bits_from(number, left, 8));
        end += 8;
    }
    if left > 0 {
        write_part(buffer, end, left, bits_from(number, 0, left));
    }
}

/// Writes the lowest `width` bits of a number, the highest of them first, into the bits from bit `at` of
/// the bytes on, and leaves all others.
pub fn write_number(buffer: &mut [u8], at: usize, width: u8, number: u128)
    requires wide { 1 ≤ width }
    requires narrow { width ≤ 128 }
    requires short { length buffer.old < 2 ^ 29 }
    requires within { at + width ≤ 8 * length buffer.old }
    ensures bits { HoldsAt buffer.new at width number }
    ensures others { SameOutside buffer.old buffer.new at width }

    // The bits up to here grow by those of the number, and what is left behind stays.
    ensures grown { take (at + width) (bits_of buffer.new)
        ≡ take at (bits_of buffer.old) ++ number_bits width number }
    ensures left { drop (at + width) (bits_of buffer.new) ≡ drop (at + width) (bits_of buffer.old) }
{
    write_parts(buffer, at, width, number);
}
