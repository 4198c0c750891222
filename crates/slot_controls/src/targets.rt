//! Where words are written.

ghost use Rattle.std.specs.Prelude.{◌≡◌};
ghost use Rattle.slot_terms.specs.States.{state_of};
ghost use Rattle.slot_controls.specs.Steps.{stored, target_of, verified};

use slot_terms::{State, is_valid, put_number};

/// Where a word is written: a slot, of a header's field the number of the header, and as many ones as
/// the width.
#[derive(Clone, Copy)]
pub struct Target {
    pub slot: u32,
    pub header: Option<u32>,
    pub mask: u128,
}

/// Writes a number as far as the mask goes; to a field of an invalid header it writes nothing.
pub fn store(t: &Target, number: u128, s: &mut State)
    ensures { state_of s.new ≡ stored (target_of t.now) number (state_of s.old) }
{
    match t.header {
        None => put_number(&mut s.slots, t.slot, number & t.mask),
        Some(header) => {
            if is_valid(&s.valid, header) {
                put_number(&mut s.slots, t.slot, number & t.mask);
            }
        }
    }
}

/// Sets the slot of the error to 1 where a number is another one than is wanted.
pub fn verify(found: u128, wanted: u16, error: u32, s: &mut State)
    ensures { state_of s.new ≡ verified found wanted error (state_of s.old) }
{
    if found != wanted as u128 {
        put_number(&mut s.slots, error, 1);
    }
}
