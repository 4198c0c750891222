//! Words that terms give.

ghost use Rattle.std.specs.Prelude.{◌≡◌};
ghost use Rattle.slot_terms.specs.States.{state_of};
ghost use Rattle.slot_terms.specs.Typed.{typed_of};
ghost use Rattle.slot_statements.specs.Tables.{key_word};

use bit_values::{Bits, sound_width};
use slot_terms::{State, Typed, eval};

/// The word that a term gives.
pub fn word_of(t: &Typed, s: &State) -> Bits
    ensures { result ≡ key_word (state_of s.now) (typed_of t.now) }
{
    Bits::new(128, eval(&t.term, &s.slots, &s.valid)).cast(sound_width(t.width))
}
