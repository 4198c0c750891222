//! Packets that wait between halves.

ghost use Rattle.std.specs.Prelude.{◌≡◌, ◌<◌, Some, length, map, get_or, slice_get, slice_set, IfSome, MatchOption};
ghost use Rattle.network_run.specs.Network.{Over};
ghost use Rattle.path_runner.specs.Places.{place_in, parked_place};
ghost use Rattle.path_runner.specs.Sound.{IsNotWaiting};
ghost use Rattle.path_runner.specs.declared.place.Place.TheVariants as code;

use crate::place::{Parked, Place};
use p4_machine::Pass;
use std::mem;

/// The packet of a number, which is taken from its place, where it waits; then it is at its end.
pub(crate) fn take_parked<P: Pass + Drop>(
    places: &mut Vec<Place<P>>,
    at: usize,
) -> Option<Parked<P>>
    requires { at < length places.old.items }
    ensures length { length places.new.items ≡ length places.old.items }
    ensures taken { MatchOption result
        ((map place_in places.new.items ≡ map place_in places.old.items) × IsNotWaiting (get_or (map place_in places.old.items) at Over))
        (λ p. (map place_in places.new.items ≡ slice_set (map place_in places.old.items) at Over)
        × (get_or (map place_in places.old.items) at Over ≡ parked_place p)) }
    ensures waited { IfSome result (λ p. slice_get places.old.items at ≡ Some (code.Waiting p)) }
    ensures items { MatchOption result (places.new.items ≡ places.old.items) (λ _. places.new.items ≡ slice_set places.old.items at code.Over) }
{
    match mem::replace(&mut places[at], Place::Over) {
        Place::Waiting(parked) => Some(parked),
        other => {
            let _over = mem::replace(&mut places[at], other);
            None
        }
    }
}
