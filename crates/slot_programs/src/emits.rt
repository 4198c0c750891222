//! The slots of headers, and the headers that a deparser emits.

ghost use Rattle.std.specs.Prelude.{◌≡◌, ◌++◌, ◌∷◌, [], map, IfOk, OnOk};
ghost use Rattle.p4_parts.specs.PartsIn.{parts_in};
ghost use Rattle.slot_terms.specs.Places.{places_of};
ghost use Rattle.slot_places.specs.HeaderSlots.{header_slots_of};
ghost use Rattle.slot_controls.specs.Steps.{slots_of};
ghost use Rattle.slot_deparsers.specs.Emits.{numbers_of};
ghost use Rattle.slot_programs.specs.Sight.{slots_at};

use p4_parts::Parts;
use slot_controls::HeaderSlots;
use slot_places::SlotHeader;
use slot_terms::{Places, header_number};
use std::alloc::{AllocError, Global};

/// The slots of a header's fields: the first one, and how many.
fn slots_at(h: &SlotHeader) -> Result<HeaderSlots, AllocError>
    ensures { IfOk result (λ s. slots_of s ≡ slots_at (header_slots_of h.now)) }
{
    match u32::try_from(h.widths.len()) {
        Ok(count) => Ok(HeaderSlots {
            first: h.first,
            count,
        }),
        Err(_) => Err(AllocError),
    }
}

/// The same of some headers, by their numbers.
pub(crate) fn header_slots(
    alloc: Global,
    headers: &[SlotHeader],
) -> Result<Vec<HeaderSlots>, AllocError>
    ensures { IfOk result (λ v. map slots_of v.items ≡ map slots_at (map header_slots_of headers.now)) }
{
    let mut slots = Vec::new(alloc);
    for h in headers {
        slots.push(slots_at(h)?)?;
    }
    Ok(slots)
}

/// The numbers of the headers that a program's deparser emits, in order.
pub(crate) fn emit_numbers(
    alloc: Global,
    places: &Places,
    p: &Parts,
) -> Result<Vec<u32>, AllocError>
    ensures { IfOk result (λ v. v.items ≡ numbers_of (places_of places.now).headers (parts_in p.now).emits) }
{
    let mut numbers = Vec::new(alloc);
    for path in &p.emits {
        match header_number(&places.headers, path)? {
            Some(number) => numbers.push(number)?,
            None => {}
        }
    }
    Ok(numbers)
}
