//! Bytes as values.

ghost use Rattle.std.specs.Prelude.{◌≡◌, ◌+◌, ◌*◌, ◌≤◌, length, map, take, drop, List, Some, IfSome, IfOk};
ghost use Rattle.bit_values.specs.Bits.{Word};
ghost use Rattle.bit_values.specs.Bytes.{bits_of};
ghost use Rattle.tele_layout.specs.Layouts.{slot_length, slots_length, layout_bytes, lists_of, lists_in, FitSlots, IsSlot, ArePlaced, IsLayout};
ghost use Rattle.tele_layout.specs.Reading.{all_zero, words_in, list_in, slot_in, slots_in, cells_found};

use crate::slots::{Layout, Slot, length_of};
use bit_values::{Bits, take_bits};
use indus_values::TeleState;
use std::alloc::{AllocError, Global};

/// Numbers of a width, one behind the other.
fn read_numbers(
    alloc: Global,
    buf: &[u8],
    at: usize,
    width: u8,
    count: u8,
) -> Result<Vec<Bits>, AllocError>
    requires wide { 1 ≤ width }
    requires narrow { width ≤ 128 }
    requires within { at + count * width ≤ 8 * length buf.now }
    requires short { length buf.now ≤ 65535 }
    ensures { IfOk result (λ v. v.items ≡ words_in width count (drop at (bits_of buf.now))) }
{
    let mut numbers = Vec::new(alloc);
    let mut next = at;
    for _ in 0..count {
        numbers.push(take_bits(buf, next, width))?;
        next += width as usize;
    }
    Ok(numbers)
}

/// Whether so many bits are 0.
fn are_zeros(buf: &[u8], at: usize, count: usize) -> bool
    requires within { at + count ≤ 8 * length buf.now }
    requires short { length buf.now ≤ 65535 }
    ensures { result ≡ all_zero (take count (drop at (bits_of buf.now))) }
{
    for i in 0..count {
        if take_bits(buf, at + i, 1).value != 0 {
            return false;
        }
    }
    true
}

/// The items of a list that holds so many, where it has room for them and unused bits are 0.
fn read_list(
    alloc: Global,
    buf: &[u8],
    slot: Slot,
    used: u128,
) -> Result<Option<Vec<Bits>>, AllocError>
    requires placed { IsSlot slot.at slot }
    requires within { slot.at + 8 + slot.count * slot.width ≤ 8 * length buf.now }
    requires short { length buf.now ≤ 65535 }
    ensures { IfOk result (λ o. cells_found o
        ≡ list_in slot.width slot.count used (drop (slot.at + 8) (bits_of buf.now))) }
{
    if used > slot.count as u128 {
        return Ok(None);
    }
    let used = used as u8;
    let items = slot.at as usize + 8;
    let width = slot.width as usize;
    let unused = (slot.count - used) as usize * width;
    if !are_zeros(buf, items + used as usize * width, unused) {
        return Ok(None);
    }
    Ok(Some(read_numbers(alloc, buf, items, slot.width, used)?))
}

/// The values of a variable.
fn read_slot(alloc: Global, buf: &[u8], slot: Slot) -> Result<Option<Vec<Bits>>, AllocError>
    requires placed { IsSlot slot.at slot }
    requires within { slot.at + slot_length slot.width slot.count ≤ 8 * length buf.now }
    requires short { length buf.now ≤ 65535 }
    ensures { IfOk result (λ o. cells_found o ≡ slot_in slot (drop slot.at (bits_of buf.now))) }
{
    let at = slot.at as usize;
    if slot.count == 0 {
        return Ok(Some(read_numbers(alloc, buf, at, slot.width, 1)?));
    }
    let used = take_bits(buf, at, 8).value;
    read_list(alloc, buf, slot, used)
}

/// The values of the variables in so many bits, where only zeros stand behind them.
fn read_slots(
    alloc: Global,
    buf: &[u8],
    bits: usize,
    slots: &[Slot],
) -> Result<Option<TeleState>, AllocError>
    requires size { bits ≡ 8 * length buf.now }
    requires placed { ArePlaced 8 slots.now }
    requires within { 8 + slots_length slots.now ≤ 8 * length buf.now }
    requires short { length buf.now ≤ 65535 }
    ensures { IfOk result (λ o. lists_in o ≡ slots_in slots.now (drop 8 (bits_of buf.now))) }
{
    let mut items = Vec::new(alloc);
    let mut end = 8;
    for slot in slots {
        match read_slot(alloc, buf, *slot)? {
            None => return Ok(None),
            Some(values) => items.push(values)?,
        }
        end += length_of(*slot) as usize;
    }
    if !are_zeros(buf, end, bits - end) {
        return Ok(None);
    }
    Ok(Some(TeleState { items }))
}

/// The state whose bytes these are, and `None` where they are those of no state.
pub fn read_tele(alloc: Global, l: &Layout, buf: &[u8]) -> Result<Option<TeleState>, AllocError>
    requires layout { IsLayout l.now }
    requires size { length buf.now ≡ l.now.bytes }
    ensures found { IfOk result (λ o. IfSome o (λ t.
        FitSlots l.now.slots.items (lists_of t) × (layout_bytes l.now (lists_of t) ≡ buf.now))) }
    ensures only { IfOk result (λ o. (t : List (List Word)) → FitSlots l.now.slots.items t
        → layout_bytes l.now t ≡ buf.now → lists_in o ≡ Some t) }
{
    let bits = 8 * l.bytes as usize;
    if take_bits(buf, 0, 8).value != l.first as u128 {
        return Ok(None);
    }
    read_slots(alloc, buf, bits, &l.slots)
}
