//! What stands beside the slots.

ghost use Rattle.std.specs.Prelude.{◌≡◌, ◌+◌, ◌<◌, ◌≤◌, ◌++◌, ◌∷◌, [], length, map, take, slice_set, vec_len, vec_capacity};
ghost use Rattle.p4_meaning.specs.Statements.{cell_at, cell_set};
ghost use Rattle.p4_statements.specs.Runs.{digest_of};
ghost use Rattle.slot_terms.specs.States.{state_of};
ghost use Rattle.slot_terms.specs.Typed.{typed_of};
ghost use Rattle.slot_controls.specs.Steps.{numbered_cells, words_at};

use crate::words::word_of;
use arrayvec::ArrayVec;
use bit_values::Bits;
use p4_registers::Cells;
use p4_statements::Digest;
use slot_terms::{State, Typed};

/// What registers hold, by their numbers, and the digests so far.
#[derive(Drop)]
pub struct Externs {
    pub registers: Vec<Cells>,
    pub digests: Vec<Digest>,
}

/// A cell of the register of a number; out of range, or where there is no register, it is 0.
fn read_cell(registers: &[Cells], register: u32, index: u128) -> Bits
    ensures { result ≡ cell_at (numbered_cells registers.now register) index }
{
    let at = register as usize;
    if at < registers.len() {
        registers[at].read(index)
    } else {
        Bits::default()
    }
}

/// The number in such a cell.
pub fn read_number(registers: &[Cells], register: u32, index: u128) -> u128
    ensures { result ≡ (cell_at (numbered_cells registers.now register) index).value }
{
    read_cell(registers, register, index).value
}

/// Writes a cell of the register of a number, if there is one.
pub fn write_cell(registers: &mut Vec<Cells>, register: u32, index: u128, v: Bits)
    ensures { registers.new.items ≡ slice_set registers.old.items register (cell_set (numbered_cells registers.old.items register) index v) }
{
    let at = register as usize;
    if at < registers.len() {
        registers[at].write(index, v);
    }
}

/// The words that so many terms give.
fn words_of(list: &[Typed], s: &State) -> ArrayVec<Bits, 9>
    requires { length list.now ≤ 9 }
    ensures { result.items ≡ words_at (state_of s.now) (map typed_of list.now) }
{
    let mut words = ArrayVec::new();
    for t in list {
        words.push(word_of(t, s));
    }
    words
}

/// The first nine of a list.
fn first_nine(list: &[Typed]) -> &[Typed]
    ensures { result.now ≡ take 9 list.now }
{
    if list.len() < 9 { list } else { &list[..9] }
}

/// The words that the first nine terms give.
fn told_words(list: &[Typed], s: &State) -> ArrayVec<Bits, 9>
    ensures { result.items ≡ take 9 (words_at (state_of s.now) (map typed_of list.now)) }
{
    words_of(first_nine(list), s)
}

/// A digest behind others, for which there is room.
pub fn tell(digests: &mut Vec<Digest>, receiver: u32, list: &[Typed], s: &State)
    requires { vec_len digests.old < vec_capacity digests.old }
    ensures items { map digest_of digests.new.items ≡ map digest_of digests.old.items
        ++ record { receiver = receiver; values = take 9 (words_at (state_of s.now) (map typed_of list.now)) } ∷ [] }
    ensures len { vec_len digests.new ≡ vec_len digests.old + 1 }
    ensures room { vec_capacity digests.new ≡ vec_capacity digests.old }
{
    let values = told_words(list, s);
    digests.push_reserved(Digest { receiver, values });
}
