//! Numbers from bytes, a byte at a time.

ghost use Rattle.std.specs.Prelude.{◌≡◌, ◌≤◌, ◌<◌, ◌+◌, ◌-◌, ◌*◌, ◌%◌, ◌^◌, length};
ghost use Rattle.bit_values.specs.Bits.{concat};
ghost use Rattle.bit_values.specs.Bytes.{number_at};

/// The number of `width` bits of one byte, from bit `at` of the bytes on.
#[inline(always)]
fn byte_part(frame: &[u8], at: usize, width: u8) -> u8
    requires wide { 1 ≤ width }
    requires one { at % 8 + width ≤ 8 }
    requires within { at + width ≤ 8 * length frame.now }
    ensures number { result ≡ number_at frame.now at width }
    ensures in_range { result < 2 ^ width }
{
    let byte = frame[at / 8];
    let skip = (at % 8) as u8;
    (byte >> (8 - skip - width)) & (255u8 >> (8 - width))
}

/// A number with so many bits more behind it.
#[inline(always)]
fn with_bits(value: u128, bits: u8, low: u8) -> u128
    requires few { bits ≤ 8 }
    requires high { value < 2 ^ (128 - bits) }
    requires low { low < 2 ^ bits }
    ensures { result ≡ concat value bits low }
{
    (value << bits) | low as u128
}

/// The number whose bits are the `width` ones from bit `at` of the bytes on, the highest one first.
pub fn take_number(frame: &[u8], at: usize, width: u8) -> u128
    requires wide { 1 ≤ width }
    requires narrow { width ≤ 128 }
    requires short { length frame.now < 2 ^ 29 }
    requires within { at + width ≤ 8 * length frame.now }
    ensures { result ≡ number_at frame.now at width }
{
    let open = 8 - (at % 8) as u8;
    if width <= open {
        return byte_part(frame, at, width) as u128;
    }
    let mut value = byte_part(frame, at, open) as u128;
    let whole = (width - open) / 8;
    let last = (width - open) % 8;
    let mut end = at + open as usize;
    for i in 0..whole {
        value = with_bits(value, 8, byte_part(frame, end, 8));
        end += 8;
    }
    if last > 0 {
        value = with_bits(value, last, byte_part(frame, end, last));
    }
    value
}
