//! The fields of a header, which have slots one behind the other.

ghost use Rattle.std.specs.Prelude.{◌≡◌, ◌≤◌, ◌<◌, ◌+◌, ◌*◌, ◌^◌, ◌++◌, length, take, drop};
ghost use Rattle.bit_values.specs.Bytes.{bits_of};
ghost use Rattle.slot_packets.specs.Fields.{take_fields, slot_bits, widths_sum, AreWidths};

use crate::bytes::take_number;
use crate::writing::write_number;
use slot_terms::{number_in, put_number};

/// The fields of these widths, whose slots are those from `first` on, get their bits of a frame from bit
/// `at` on. The answer is the bit at which they end.
pub fn take_fields(widths: &[u8], first: u32, frame: &[u8], at: usize, slots: &mut [u128]) -> usize
    requires widths { AreWidths widths.now }
    requires few { first + length widths.now < 4294967296 }
    requires short { length frame.now < 2 ^ 29 }
    requires within { at + widths_sum widths.now ≤ 8 * length frame.now }
    ensures taken { slots.new ≡ take_fields widths.now first (drop at (bits_of frame.now)) slots.old }
    ensures end { result ≡ at + widths_sum widths.now }
{
    let mut end = at;
    for i in 0..widths.len() {
        let width = widths[i];
        put_number(slots, first + i as u32, take_number(frame, end, width));
        end += width as usize;
    }
    end
}

/// The bits of the fields of these widths, whose slots are those from `first` on, go into bytes from bit
/// `at` on, and all other bits stay. The answer is the bit at which they end.
pub fn put_fields(widths: &[u8], first: u32, slots: &[u128], buffer: &mut [u8], at: usize) -> usize
    requires widths { AreWidths widths.now }
    requires few { first + length widths.now < 4294967296 }
    requires short { length buffer.old < 2 ^ 29 }
    requires within { at + widths_sum widths.now ≤ 8 * length buffer.old }
    ensures grown { take (at + widths_sum widths.now) (bits_of buffer.new)
        ≡ take at (bits_of buffer.old) ++ slot_bits widths.now first slots.now }
    ensures left { drop (at + widths_sum widths.now) (bits_of buffer.new)
        ≡ drop (at + widths_sum widths.now) (bits_of buffer.old) }
    ensures end { result ≡ at + widths_sum widths.now }
{
    let mut end = at;
    for i in 0..widths.len() {
        let width = widths[i];
        write_number(buffer, end, width, number_in(slots, first + i as u32));
        end += width as usize;
    }
    end
}
