//! Where the fields of headers begin.

ghost use Rattle.std.specs.Prelude.{◌≡◌, ◌+◌, true, map, IfOk};
ghost use Rattle.p4_parts.specs.Headers.{field_in, header_in};
ghost use Rattle.p4_parts.specs.PartsIn.{parts_in};
ghost use Rattle.slot_packets.specs.Headers.{width_in};
ghost use Rattle.slot_places.specs.ProgramRows.{first_header};
ghost use Rattle.slot_places.specs.ProgramPlaces.{are_widths};
ghost use Rattle.slot_places.specs.HeaderSlots.{header_slots_of, slots_of_headers};

use crate::header::SlotHeader;
use p4_parts::{Field, Header, Parts};
use std::alloc::{AllocError, Global};

/// How many values the standard metadata has.
const STANDARD: u32 = 6;

/// The widths of fields.
fn field_widths(alloc: Global, fields: &[Field]) -> Result<Vec<u8>, AllocError>
    ensures widths { IfOk result (λ v. v.items ≡ map width_in (map field_in fields.now)) }
    ensures sound { IfOk result (λ v. are_widths v.items ≡ true) }
{
    let mut widths = Vec::new(alloc);
    for f in fields {
        widths.push(f.width)?;
    }
    Ok(widths)
}

/// So many slots more, if 32 bits number them. No memory holds more.
fn with_slots(slots: u32, more: usize) -> Result<u32, AllocError>
    ensures { IfOk result (λ n. n ≡ slots + more) }
{
    match u32::try_from(more) {
        Ok(more) => slots.checked_add(more).ok_or(AllocError),
        Err(_) => Err(AllocError),
    }
}

/// A header whose fields begin at a slot.
fn slot_header(alloc: Global, fields: &[Field], first: u32) -> Result<SlotHeader, AllocError>
    ensures { IfOk result (λ h. header_slots_of h ≡ record { first = first; widths = map width_in (map field_in fields.now) }) }
{
    let widths = field_widths(alloc, fields)?;
    match u32::try_from(widths.len()) {
        Err(_) => Err(AllocError),
        Ok(count) => {
            if count > u32::MAX - first {
                return Err(AllocError);
            }
            Ok(SlotHeader { first, widths })
        }
    }
}

/// Where the fields of each of some headers begin, those of the first at a slot.
fn headers_from(
    alloc: Global,
    headers: &[Header],
    first: u32,
) -> Result<Vec<SlotHeader>, AllocError>
    ensures { IfOk result (λ v. map header_slots_of v.items ≡ slots_of_headers (map header_in headers.now) first) }
{
    let mut made = Vec::new(alloc);
    let mut next = first;
    for h in headers {
        let header = slot_header(alloc, &h.fields, next)?;
        next = with_slots(next, h.fields.len())?;
        made.push(header)?;
    }
    Ok(made)
}

/// Where the fields of each header of a program begin, and how wide they are; a header's number is its
/// place in the list.
pub fn slot_headers(alloc: Global, p: &Parts) -> Result<Vec<SlotHeader>, AllocError>
    ensures { IfOk result (λ v. map header_slots_of v.items ≡ slots_of_headers (parts_in p.now).headers (first_header (parts_in p.now))) }
{
    let first = with_slots(STANDARD, p.metadata.len())?;
    headers_from(alloc, &p.headers, first)
}
