//! Values as bytes.

ghost use Rattle.std.specs.Prelude.{◌≡◌, ◌+◌, ◌*◌, ◌≤◌, ◌++◌, length, map, replicate, take};
ghost use Rattle.std.specs.List.{All};
ghost use Rattle.bit_values.specs.Bytes.{bits_of};
ghost use Rattle.indus_tree.specs.Shapes.{HasWidth};
ghost use Rattle.indus_values.specs.View.{cells_of};
ghost use Rattle.tele_layout.specs.Layouts.{slot_length, slots_length, slots_bits, layout_bytes, lists_of, FitsSlot, FitSlots, IsSlot, ArePlaced, IsLayout};
ghost use Rattle.tele_layout.specs.Telemetry.{numbers_bits, slot_bits};

use crate::slots::{Layout, Slot};
use bit_values::{Bits, put_bits};
use indus_values::TeleState;

/// Writes numbers of a width one behind the other. The answer is the place behind them.
fn put_numbers(buf: &mut [u8], at: usize, width: u8, numbers: &[Bits]) -> usize
    requires wide { 1 ≤ width }
    requires narrow { width ≤ 128 }
    requires words { All (HasWidth width) numbers.now }
    requires within { at + length numbers.now * width ≤ 8 * length buf.old }
    requires short { length buf.old ≤ 65535 }
    ensures end { result ≡ at + length numbers.now * width }
    ensures grown { take result (bits_of buf.new) ≡ take at (bits_of buf.old) ++ numbers_bits width numbers.now }
{
    let mut end = at;
    for v in numbers {
        put_bits(buf, end, *v);
        end += width as usize;
    }
    end
}

/// Writes so many bits that are 0.
fn put_zeros(buf: &mut [u8], at: usize, count: usize)
    requires within { at + count ≤ 8 * length buf.old }
    requires short { length buf.old ≤ 65535 }
    ensures { take (at + count) (bits_of buf.new) ≡ take at (bits_of buf.old) ++ replicate count 0 }
{
    for i in 0..count {
        put_bits(buf, at + i, Bits::new(1, 0));
    }
}

/// Writes a variable. The answer is the place behind it.
fn put_slot(buf: &mut [u8], slot: Slot, values: &[Bits]) -> usize
    requires placed { IsSlot slot.at slot }
    requires within { slot.at + slot_length slot.width slot.count ≤ 8 * length buf.old }
    requires short { length buf.old ≤ 65535 }
    requires fits { FitsSlot slot values.now }
    ensures end { result ≡ slot.at + slot_length slot.width slot.count }
    ensures grown { take result (bits_of buf.new)
        ≡ take slot.at (bits_of buf.old) ++ slot_bits slot.width slot.count values.now }
{
    let at = slot.at as usize;
    if slot.count == 0 {
        return put_numbers(buf, at, slot.width, values);
    }
    put_bits(buf, at, Bits::new(8, values.len() as u128));
    let end = put_numbers(buf, at + 8, slot.width, values);
    let unused = (slot.count as usize - values.len()) * slot.width as usize;
    put_zeros(buf, end, unused);
    end + unused
}

/// Writes the variables behind the first byte. The answer is the place behind them.
fn put_slots(buf: &mut [u8], slots: &[Slot], lists: &[Vec<Bits>]) -> usize
    requires placed { ArePlaced 8 slots.now }
    requires within { 8 + slots_length slots.now ≤ 8 * length buf.old }
    requires short { length buf.old ≤ 65535 }
    requires fit { FitSlots slots.now (map cells_of lists.now) }
    ensures end { result ≡ 8 + slots_length slots.now }
    ensures grown { take result (bits_of buf.new) ≡ take 8 (bits_of buf.old) ++ slots_bits slots.now (map cells_of lists.now) }
{
    let mut end = 8;
    for (slot, values) in slots.iter().zip(lists.iter()) {
        end = put_slot(buf, *slot, values);
    }
    end
}

/// Writes the bytes of a state, in time that goes with their number.
pub fn write_tele(l: &Layout, t: &TeleState, buf: &mut [u8])
    requires layout { IsLayout l.now }
    requires fit { FitSlots l.now.slots.items (lists_of t.now) }
    requires size { length buf.old ≡ l.now.bytes }
    ensures { buf.new ≡ layout_bytes l.now (lists_of t.now) }
{
    let bits = 8 * l.bytes as usize;
    put_bits(buf, 0, Bits::new(8, l.first as u128));
    let end = put_slots(buf, &l.slots, &t.items);
    put_zeros(buf, end, bits - end);
}
