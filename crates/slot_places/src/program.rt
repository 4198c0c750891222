//! The places of a program.

ghost use Rattle.std.specs.Prelude.{IfOk, IfErr};
ghost use Rattle.p4_parts.specs.PartsIn.{parts_in};
ghost use Rattle.slot_terms.specs.Places.{places_of};
ghost use Rattle.slot_places.specs.ProgramPlaces.{ArePlaced, AreProgramPlaces, BlamesParts};

use crate::apart::is_apart;
use crate::declared::{header_paths, program_rows, row_count};
use p4_parts::Parts;
use slot_terms::{Fault, Places, places_in_order};
use std::alloc::Global;

/// The places of all paths that a program declares, with `room` slots more for variables. `Unknown` where
/// a path is declared twice, a header has the path of a root, or 32 bits do not number the slots.
pub fn program_places(alloc: Global, p: &Parts, room: u32) -> Result<Places, Fault>
    ensures placed { IfOk result (λ m. ArePlaced (parts_in p.now) room (places_of m)) }
    ensures program { IfOk result (λ m. AreProgramPlaces (parts_in p.now) (places_of m)) }
    ensures blames { IfErr result (λ f. BlamesParts (parts_in p.now) room f) }
{
    let places = placed(alloc, p, room)?;
    Ok(places)
}

/// The places, of which more is known.
fn placed(alloc: Global, p: &Parts, room: u32) -> Result<Places, Fault>
    ensures placed { IfOk result (λ m. ArePlaced (parts_in p.now) room (places_of m)) }
    ensures blames { IfErr result (λ f. BlamesParts (parts_in p.now) room f) }
{
    let rows = program_rows(alloc, p)?;
    let headers = header_paths(alloc, &p.headers)?;
    let apart = is_apart(&rows, &headers)?;
    if !apart {
        return Err(Fault::Unknown);
    }
    let next = row_count(&rows)?;
    match next.checked_add(room) {
        None => Err(Fault::Unknown),
        Some(size) => Ok(places_in_order(alloc, rows, headers, next, size)?),
    }
}
