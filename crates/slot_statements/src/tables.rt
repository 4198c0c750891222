//! What tables are asked over slots.

ghost use Rattle.std.specs.Prelude.{◌≡◌, ℕ, List, ◌++◌, ◌∷◌, [], length, map, true, false, IfOk, IfErr, OnOk};
ghost use Rattle.bit_values.specs.Bits.{Word};
ghost use Rattle.p4_parts.specs.PartsIn.{key_in};
ghost use Rattle.slot_terms.specs.Typed.{typed_of};
ghost use Rattle.slot_terms.specs.Places.{places_of};
ghost use Rattle.slot_terms.specs.declared.fault.Fault.TheVariants.{Unknown};
ghost use Rattle.slot_terms.specs.States.{state_of};
ghost use Rattle.slot_statements.specs.Known.{are_known_keys};
ghost use Rattle.slot_statements.specs.Tables.{NumberedOutcome, numbered_of, MeanKeys, key_word};

use bit_values::{Bits, sound_width};
use p4_parts::Key;
use slot_terms::{Fault, Places, State, Typed, eval, typed_term};
use std::alloc::{AllocError, Global};

/// What the application of a table chooses: the number of the action that runs, the words for its
/// parameters, and whether an entry fits.
#[derive(Clone, Copy)]
pub struct NumberedOutcome<'a> {
    pub action: u32,
    pub args: &'a [Bits],
    pub hit: bool,
}

/// What the tables of a program choose, by their numbers.
pub trait NumberedTables {
    /// What the table of a number chooses for these keys.
    ghost chosen: { Self → ℕ → List Word → NumberedOutcome };

    /// What the table of a number chooses for these keys.
    fn choose<'a>(&'a self, table: u32, keys: &[Bits]) -> NumberedOutcome<'a>
        ensures { numbered_of result ≡ chosen self.now table keys.now };
}

/// A key behind others.
fn push_key(keys: &mut Vec<Typed>, t: Typed) -> Result<(), AllocError>
    ensures { OnOk result (map typed_of keys.new.items ≡ map typed_of keys.old.items ++ typed_of t ∷ []) }
{
    keys.push(t)?;
    Ok(())
}

/// The terms of a table's keys. `Unknown` comes only where a path has no place.
pub fn key_terms(alloc: Global, places: &Places, keys: &[Key]) -> Result<Vec<Typed>, Fault>
    ensures known { OnOk result (are_known_keys (places_of places.now) (map key_in keys.now) ≡ true) }
    ensures mean { IfOk result (λ v. MeanKeys (places_of places.now) (map key_in keys.now) (map typed_of v.items)) }
    ensures blames { IfErr result (λ f. f ≡ Unknown → are_known_keys (places_of places.now) (map key_in keys.now) ≡ false) }
{
    let mut all = Vec::new(alloc);
    for k in keys {
        let t = typed_term(alloc, places, &k.value, 0)?;
        push_key(&mut all, t)?;
    }
    Ok(all)
}

/// The word that a key has.
fn key_word(t: &Typed, s: &State) -> Bits
    ensures { result ≡ key_word (state_of s.now) (typed_of t.now) }
{
    Bits::new(128, eval(&t.term, &s.slots, &s.valid)).cast(sound_width(t.width))
}

/// The words of keys go into a buffer, which has as many.
pub fn put_keys(keys: &[Typed], s: &State, buffer: &mut [Bits])
    requires { length buffer.old ≡ length keys.now }
    ensures { buffer.new ≡ map (key_word (state_of s.now)) (map typed_of keys.now) }
{
    for i in 0..keys.len() {
        buffer[i] = key_word(&keys[i], s);
    }
}
