//! The parameters of actions, and what they get of words, as tables give them.

ghost use Rattle.std.specs.Prelude.{◌≡◌, ◌++◌, ◌∷◌, [], map, true, false, IfErr, OnOk};
ghost use Rattle.p4_parts.specs.PartsIn.{param_in};
ghost use Rattle.slot_terms.specs.Places.{places_of};
ghost use Rattle.slot_terms.specs.declared.fault.Fault.TheVariants.{Unknown};
ghost use Rattle.slot_terms.specs.States.{state_of};
ghost use Rattle.slot_statements.specs.Parameters.{masked_from, with_params};
ghost use Rattle.slot_statements.specs.Known.{are_free};
ghost use Rattle.slot_statements.specs.Actions.{bind_words};

use crate::statements::variable_slot;
use bit_values::{Bits, sound_width};
use p4_parts::Taken;
use slot_terms::{Fault, Places, State, mask, put_number};
use std::alloc::{AllocError, Global};

/// Slots get words, each cut by its mask; where a word is wanting, 0.
pub fn bind_words(params: &[(u32, u128)], words: &[Bits], s: &mut State)
    ensures { state_of s.new ≡ bind_words params.now words.now (state_of s.old) }
{
    let mut left = words.iter();
    for p in params {
        match left.next() {
            None => put_number(&mut s.slots, p.0, 0),
            Some(w) => put_number(&mut s.slots, p.0, w.value & p.1),
        }
    }
}

/// A slot with its mask behind others.
fn push_masked(slots: &mut Vec<(u32, u128)>, slot: u32, mask: u128) -> Result<(), AllocError>
    ensures { OnOk result (slots.new.items ≡ slots.old.items ++ record { 0 = slot; 1 = mask } ∷ []) }
{
    slots.push((slot, mask))?;
    Ok(())
}

/// The parameters get the next slots, which go behind others with masks of their widths. `Unknown` where a
/// name has a place or no slot is left. After an `Err` nothing is said of the places.
pub fn masked(
    alloc: Global,
    places: &mut Places,
    params: &[Taken],
    slots: &mut Vec<(u32, u128)>,
) -> Result<(), Fault>
    ensures places { OnOk result (places_of places.new ≡ with_params (places_of places.old) (map param_in params.now)) }
    ensures free { OnOk result (are_free (places_of places.old) (map param_in params.now) ≡ true) }
    ensures slots { OnOk result (slots.new.items ≡ slots.old.items ++ masked_from (places_of places.old).next (map param_in params.now)) }
    ensures blames { IfErr result (λ f. f ≡ Unknown → are_free (places_of places.old) (map param_in params.now) ≡ false) }
{
    for p in params {
        let width = sound_width(p.width);
        let slot = variable_slot(alloc, places, &p.name, width)?;
        push_masked(slots, slot, mask(width))?;
    }
    Ok(())
}
