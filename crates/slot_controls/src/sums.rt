//! The checksum of words, as they come.

ghost use Rattle.std.specs.Prelude.{◌≡◌, ◌<◌, ◌≤◌, ◌+◌, ◌-◌, ◌^◌, ◌++◌, ℕ, List, map};
ghost use Rattle.bit_values.specs.Bits.{concat, shr};
ghost use Rattle.bit_values.specs.BitLists.{number_bits};
ghost use Rattle.p4_meaning.specs.Checksum.{ones_sum};
ghost use Rattle.slot_terms.specs.States.{state_of};
ghost use Rattle.slot_terms.specs.Typed.{typed_of};
ghost use Rattle.slot_controls.specs.Steps.{words_at, words_checksum};
ghost use Rattle.slot_controls.specs.Sums.{checksum_behind, sum_behind};

use crate::words::word_of;
use bit_values::Bits;
use slot_terms::{State, Typed, mask};

/// The one's complement sum of the whole numbers of 16 bits so far, and the bits behind them.
#[derive(Clone, Copy)]
struct Sum {
    whole: u16,
    part: u128,
    count: u8,
    ghost few: { count < 16 },
    ghost low: { part < 2 ^ count },
}

/// The one's complement sum of two numbers of 16 bits.
fn ones_sum(a: u16, b: u16) -> u16
    ensures { result ≡ ones_sum a b }
{
    let sum = a as u32 + b as u32;
    (sum % 65_536 + sum / 65_536) as u16
}

/// Bits behind others, with which they are 16 at the most.
fn joined(part: u128, width: u8, value: u128, count: u8) -> u128
    requires few { width + count ≤ 16 }
    requires high { part < 2 ^ width }
    requires low { value < 2 ^ count }
    ensures value { result ≡ concat part count value }
    ensures in_range { result < 2 ^ (width + count) }
{
    (part << count) | value
}

/// A number of 16 bits and its sum, with fewer bits behind them.
fn open_sum(whole: u16, part: u128, count: u8) -> Sum
    requires few { count < 16 }
    requires low { part < 2 ^ count }
    ensures { (more : List ℕ) → sum_behind result.whole result.part result.count more ≡ sum_behind whole part count more }
{
    Sum { whole, part, count }
}

/// The sum with a number of 16 bits more.
fn whole_sum(whole: u16, number: u16) -> Sum
    ensures { (more : List ℕ) → sum_behind result.whole result.part result.count more ≡ sum_behind whole number 16 more }
{
    Sum {
        whole: ones_sum(whole, number),
        part: 0,
        count: 0,
    }
}

/// The sum with so many bits more, which end a number of 16 bits at the most.
fn with_bits(sum: Sum, value: u128, count: u8) -> Sum
    requires few { sum.count + count ≤ 16 }
    requires low { value < 2 ^ count }
    ensures { (more : List ℕ) → sum_behind result.whole result.part result.count more
        ≡ sum_behind sum.whole sum.part sum.count (number_bits count value ++ more) }
{
    let part = joined(sum.part, sum.count, value, count);
    let total = sum.count + count;
    if total < 16 {
        open_sum(sum.whole, part, total)
    } else {
        whole_sum(sum.whole, part as u16)
    }
}

/// The lesser of two numbers.
fn lesser(a: u8, b: u8) -> u8
    ensures left { result ≤ a }
    ensures right { result ≤ b }
    ensures positive { 1 ≤ a → 1 ≤ b → 1 ≤ result }
{
    if a < b { a } else { b }
}

/// The sum with so many bits of a number more.
fn with_number(sum: Sum, width: u8, value: u128) -> Sum
    requires { width ≤ 128 }
    ensures { (more : List ℕ) → sum_behind result.whole result.part result.count more
        ≡ sum_behind sum.whole sum.part sum.count (number_bits width value ++ more) }
{
    let mut sum = sum;
    let mut left = width;
    while left > 0 {
        let count = lesser(left, 16 - sum.count);
        left -= count;
        sum = with_bits(sum, (value >> left) & mask(count), count);
    }
    sum
}

/// The sum with the bits of a word more.
fn with_word(sum: Sum, word: Bits) -> Sum
    ensures { (more : List ℕ) → sum_behind result.whole result.part result.count more
        ≡ sum_behind sum.whole sum.part sum.count (number_bits word.width word.value ++ more) }
{
    with_number(sum, word.width(), word.value)
}

/// The first byte of 8 to 15 bits.
fn first_byte(part: u128, count: u8) -> u16
    requires whole { 8 ≤ count }
    requires few { count < 16 }
    requires low { part < 2 ^ count }
    ensures value { result ≡ shr part (count - 8) }
    ensures in_range { result < 256 }
{
    (part >> (count - 8)) as u16
}

/// The checksum of the whole bytes so far.
fn finished(sum: Sum) -> u16
    ensures { result ≡ checksum_behind sum.whole sum.part sum.count }
{
    if sum.count < 8 {
        65_535 - sum.whole
    } else {
        65_535 - ones_sum(sum.whole, 256 * first_byte(sum.part, sum.count))
    }
}

/// The checksum of the words that terms give.
pub fn words_checksum(list: &[Typed], s: &State) -> u16
    ensures { result ≡ words_checksum (words_at (state_of s.now) (map typed_of list.now)) }
{
    let mut sum = open_sum(0, 0, 0);
    for t in list {
        sum = with_word(sum, word_of(t, s));
    }
    finished(sum)
}
