//! The headers that a deparser emits.

ghost use Rattle.std.specs.Prelude.{◌≡◌, ◌≤◌, ◌<◌, ◌+◌, ◌*◌, ◌^◌, ◌++◌, length, map, take, slice_get, IfOk, Some};
ghost use Rattle.bit_values.specs.Bytes.{bits_of};
ghost use Rattle.slot_terms.specs.States.{state_of};
ghost use Rattle.slot_packets.specs.Fields.{slot_bits, widths_sum};
ghost use Rattle.slot_places.specs.HeaderSlots.{header_slots_of};
ghost use Rattle.slot_deparsers.specs.Emits.{emitted_bits, header_width, most_bits, valid_bits};

use slot_packets::put_fields;
use slot_places::SlotHeader;
use slot_terms::{State, is_valid};
use std::alloc::AllocError;

/// The fields of a header go behind the bits before `at`.
fn emit_fields(h: &SlotHeader, s: &State, buffer: &mut [u8], at: usize) -> usize
    requires short { length buffer.old < 2 ^ 29 }
    requires within { at + widths_sum (header_slots_of h.now).widths ≤ 8 * length buffer.old }
    ensures grown { take result (bits_of buffer.new)
        ≡ take at (bits_of buffer.old) ++ slot_bits (header_slots_of h.now).widths h.now.first (state_of s.now).slots }
    ensures end { result ≡ at + widths_sum (header_slots_of h.now).widths }
{
    put_fields(&h.widths, h.first, &s.slots, buffer, at)
}

/// A header, whose number this is, goes behind the bits before `at`, where it is valid.
fn emit_valid(h: &SlotHeader, number: u32, s: &State, buffer: &mut [u8], at: usize) -> usize
    requires short { length buffer.old < 2 ^ 29 }
    requires within { at + widths_sum (header_slots_of h.now).widths ≤ 8 * length buffer.old }
    ensures grown { take result (bits_of buffer.new)
        ≡ take at (bits_of buffer.old) ++ valid_bits (Some (header_slots_of h.now)) number (state_of s.now) }
    ensures end { result ≤ at + widths_sum (header_slots_of h.now).widths }
{
    if is_valid(&s.valid, number) {
        emit_fields(h, s, buffer, at)
    } else {
        at
    }
}

/// The header of a number goes behind the bits before `at`, where there is one and it is valid.
fn emit_header(
    headers: &[SlotHeader],
    number: u32,
    s: &State,
    buffer: &mut [u8],
    at: usize,
) -> usize
    requires short { length buffer.old < 2 ^ 29 }
    requires within { at + header_width (slice_get (map header_slots_of headers.now) number) ≤ 8 * length buffer.old }
    ensures grown { take result (bits_of buffer.new)
        ≡ take at (bits_of buffer.old) ++ valid_bits (slice_get (map header_slots_of headers.now) number) number (state_of s.now) }
    ensures end { result ≤ at + header_width (slice_get (map header_slots_of headers.now) number) }
{
    let i = number as usize;
    if i < headers.len() {
        emit_valid(&headers[i], number, s, buffer, at)
    } else {
        at
    }
}

/// Writes the bits of the valid headers among those of some numbers, and says how many that are.
pub fn emit_headers(headers: &[SlotHeader], numbers: &[u32], s: &State, buffer: &mut [u8]) -> usize
    requires short { length buffer.old < 2 ^ 29 }
    requires within { most_bits (map header_slots_of headers.now) numbers.now ≤ 8 * length buffer.old }
    ensures bits { take result (bits_of buffer.new)
        ≡ emitted_bits (map header_slots_of headers.now) numbers.now (state_of s.now) }
    ensures end { result ≤ most_bits (map header_slots_of headers.now) numbers.now }
{
    let mut end = 0;
    for i in 0..numbers.len() {
        end = emit_header(headers, numbers[i], s, buffer, end);
    }
    end
}

/// Two numbers together. What 64 bits do not count no memory holds: that is told as want of memory.
fn together(a: usize, b: usize) -> Result<usize, AllocError>
    ensures { IfOk result (λ n. n ≡ a + b) }
{
    match a.checked_add(b) {
        Some(n) => Ok(n),
        None => Err(AllocError),
    }
}

/// How many bits the fields of a header have.
fn sum_of(widths: &[u8]) -> Result<usize, AllocError>
    ensures { IfOk result (λ n. n ≡ widths_sum widths.now) }
{
    let mut sum = 0;
    for width in widths {
        sum = together(sum, *width as usize)?;
    }
    Ok(sum)
}

/// How many bits the header of a number has.
fn header_width(headers: &[SlotHeader], number: u32) -> Result<usize, AllocError>
    ensures { IfOk result (λ n. n ≡ header_width (slice_get (map header_slots_of headers.now) number)) }
{
    let i = number as usize;
    if i < headers.len() {
        sum_of(&headers[i].widths)
    } else {
        Ok(0)
    }
}

/// How many bits the headers of some numbers have: for so many there is to be room.
pub fn most_bits(headers: &[SlotHeader], numbers: &[u32]) -> Result<usize, AllocError>
    ensures { IfOk result (λ n. n ≡ most_bits (map header_slots_of headers.now) numbers.now) }
{
    let mut most = 0;
    for i in 0..numbers.len() {
        most = together(most, header_width(headers, numbers[i])?)?;
    }
    Ok(most)
}
