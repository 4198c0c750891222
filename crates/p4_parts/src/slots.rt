//! How many values a packet has between the halves of a passage.

ghost use Rattle.std.specs.Prelude.{◌≡◌, ◌+◌, ◌<◌, IfOk, OnErr, length, map};
ghost use Rattle.p4_tree.specs.View.{program_of, top_of};
ghost use Rattle.p4_meaning.specs.Parts.{header_of, parts_of};
ghost use Rattle.p4_parts.specs.Slots.{header_slots, slots_in};

use crate::build::struct_at;
use lex_text::Name;
use p4_resolved::{header_fields, type_name};
use p4_tree::{PTy, Program, Top};
use std::alloc::AllocError;

/// The values of the standard metadata.
const STANDARD: u32 = 6;

/// So many slots more, if 32 bits number them. No memory holds more.
fn with_slots(slots: u32, more: usize) -> Result<u32, AllocError>
    ensures sum { IfOk result (λ n. n ≡ slots + more) }
    ensures over { OnErr result (4294967295 < slots + more) }
{
    match u32::try_from(more) {
        Ok(more) => slots.checked_add(more).ok_or(AllocError),
        Err(_) => Err(AllocError),
    }
}

/// The slots of headers behind so many others.
fn with_headers(slots: u32, tops: &[Top], headers: &[(PTy, Name)]) -> Result<u32, AllocError>
    ensures sum { IfOk result (λ n. n ≡ slots + header_slots (map (header_of (map top_of tops.now)) headers.now)) }
    ensures over { OnErr result (4294967295 < slots + header_slots (map (header_of (map top_of tops.now)) headers.now)) }
{
    let mut sum = slots;
    for header in headers {
        sum = with_slots(sum, header_fields(tops, type_name(&header.0)).len())?;
    }
    Ok(sum)
}

/// How many slots a packet of the program takes between the halves of a passage: one for each field of
/// a header, each field of the metadata and each of the standard metadata.
///
/// # Errors
///
/// `AllocError` where 32 bits don't number them: no memory holds so many.
pub fn slots_of(p: &Program) -> Result<u32, AllocError>
    ensures slots { IfOk result (λ n. n ≡ slots_in (parts_of (program_of p.now))) }
    ensures over { OnErr result (4294967295 < slots_in (parts_of (program_of p.now))) }
{
    let slots = with_slots(STANDARD, struct_at(p, 2).len())?;
    with_headers(slots, &p.tops, struct_at(p, 1))
}
