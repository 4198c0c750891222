//! setValid and setInvalid.

ghost use Rattle.std.specs.Prelude.{◌≡◌, ◌<◌, ◌+◌, slice_set};
ghost use Rattle.slot_terms.specs.States.{state_of};
ghost use Rattle.slot_terms.specs.Terms.{valid_at};
ghost use Rattle.slot_packets.specs.Validity.{with_validity, zero_slots};

use slot_terms::{State, is_valid, put_number};

/// The header of a number is valid, or it is not; where there is no such header nothing is done.
fn put_validity(headers: &mut [bool], header: u32, valid: bool)
    ensures { headers.new ≡ slice_set headers.old header valid }
{
    let header = header as usize;
    if header < headers.len() {
        headers[header] = valid;
    }
}

/// So many slots from one on become 0.
fn zero_slots(slots: &mut [u128], first: u32, count: u32)
    requires { first + count < 4294967296 }
    ensures { slots.new ≡ zero_slots first count slots.old }
{
    for i in 0..count {
        put_number(slots, first + i, 0);
    }
}

/// Makes the header of a number valid, or invalid. Its fields have `count` slots from `first` on: setValid
/// makes those of an invalid header 0, and changes nothing on a valid one.
pub fn set_validity(s: &mut State, header: u32, first: u32, count: u32, valid: bool)
    requires { first + count < 4294967296 }
    ensures { state_of s.new ≡ with_validity (valid_at (state_of s.old).valid header) valid header first count (state_of s.old) }
{
    if is_valid(&s.valid, header) {
        if !valid {
            put_validity(&mut s.valid, header, false);
        }
    } else if valid {
        zero_slots(&mut s.slots, first, count);
        put_validity(&mut s.valid, header, true);
    }
}
