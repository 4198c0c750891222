//! The rows of what a program declares.

ghost use Rattle.std.specs.Prelude.{◌≡◌, ◌++◌, ◌∷◌, [], length, map, IfOk, OnOk, Some};
ghost use Rattle.p4_meaning.specs.Standard.{standard_root};
ghost use Rattle.p4_parts.specs.Headers.{field_in, header_in};
ghost use Rattle.p4_parts.specs.PartsIn.{parts_in};
ghost use Rattle.slot_terms.specs.Places.{path_of, place_of};
ghost use Rattle.slot_places.specs.ProgramRows.{path_in, plain_row, row_of, standard_rows, field_rows, header_rows, program_rows};

use lex_text::Name;
use p4_parts::{Field, Header, Parts};
use p4_values::{copy_path, field_path, path_of_one, path_of_two};
use slot_terms::Place;
use std::alloc::{AllocError, Global};

/// How many rows there are. What 32 bits do not count no memory holds.
pub(crate) fn row_count(rows: &[Place]) -> Result<u32, AllocError>
    ensures { IfOk result (λ n. n ≡ length (map place_of rows.now)) }
{
    match u32::try_from(rows.len()) {
        Ok(count) => Ok(count),
        Err(_) => Err(AllocError),
    }
}

/// A path gets the next slot.
fn push_row(
    rows: &mut Vec<Place>,
    path: Vec<Name>,
    width: u8,
    header: Option<u32>,
) -> Result<(), AllocError>
    ensures { OnOk result (map place_of rows.new.items
        ≡ map place_of rows.old.items ++ row_of path.items (length (map place_of rows.old.items)) width header ∷ []) }
{
    let slot = row_count(rows)?;
    rows.push(Place {
        path,
        slot,
        width,
        header,
    })?;
    Ok(())
}

/// A field of the standard metadata gets the next slot.
fn push_standard(
    alloc: Global,
    field: &str,
    width: u8,
    rows: &mut Vec<Place>,
) -> Result<(), AllocError>
    ensures { OnOk result (map place_of rows.new.items
        ≡ map place_of rows.old.items ++ plain_row (standard_root ∷ field.now ∷ []) (length (map place_of rows.old.items)) width ∷ []) }
{
    let path = path_of_two(alloc, "standard_metadata", field)?;
    push_row(rows, path, width, None)
}

/// The rows of the standard metadata.
fn standard_rows(alloc: Global) -> Result<Vec<Place>, AllocError>
    ensures { IfOk result (λ v. map place_of v.items ≡ standard_rows) }
{
    let mut rows = Vec::new(alloc);
    push_standard(alloc, "ingress_port", 9, &mut rows)?;
    push_standard(alloc, "egress_spec", 9, &mut rows)?;
    push_standard(alloc, "egress_port", 9, &mut rows)?;
    push_standard(alloc, "packet_length", 32, &mut rows)?;
    push_standard(alloc, "checksum_error", 1, &mut rows)?;
    push_standard(alloc, "parser_error", 2, &mut rows)?;
    Ok(rows)
}

/// Fields below a path get the next slots.
fn push_fields(
    alloc: Global,
    above: &[Name],
    header: Option<u32>,
    fields: &[Field],
    rows: &mut Vec<Place>,
) -> Result<(), AllocError>
    ensures { OnOk result (map place_of rows.new.items
        ≡ map place_of rows.old.items ++ field_rows above.now header (map field_in fields.now) (length (map place_of rows.old.items))) }
{
    for f in fields {
        let path = field_path(alloc, above, &f.name)?;
        push_row(rows, path, f.width, header)?;
    }
    Ok(())
}

/// The fields of the header of a number get the next slots.
fn push_header(
    alloc: Global,
    h: &Header,
    number: u32,
    rows: &mut Vec<Place>,
) -> Result<(), AllocError>
    ensures { OnOk result (map place_of rows.new.items
        ≡ map place_of rows.old.items ++ field_rows (header_in h.now).path (Some number) (header_in h.now).fields (length (map place_of rows.old.items))) }
{
    push_fields(alloc, &h.path, Some(number), &h.fields, rows)
}

/// The fields of headers get the next slots.
fn push_headers(alloc: Global, headers: &[Header], rows: &mut Vec<Place>) -> Result<(), AllocError>
    ensures { OnOk result (map place_of rows.new.items
        ≡ map place_of rows.old.items ++ header_rows (map header_in headers.now) 0 (length (map place_of rows.old.items))) }
{
    for i in 0..headers.len() {
        match u32::try_from(i) {
            Ok(number) => push_header(alloc, &headers[i], number, rows)?,
            Err(_) => return Err(AllocError),
        }
    }
    Ok(())
}

/// The rows of all that a program declares.
pub(crate) fn program_rows(alloc: Global, p: &Parts) -> Result<Vec<Place>, AllocError>
    ensures { IfOk result (λ v. map place_of v.items ≡ program_rows (parts_in p.now)) }
{
    let mut rows = standard_rows(alloc)?;
    let root = Name::new(alloc, "meta")?;
    let path = path_of_one(alloc, &root)?;
    push_fields(alloc, &path, None, &p.metadata, &mut rows)?;
    push_headers(alloc, &p.headers, &mut rows)?;
    Ok(rows)
}

/// The paths of headers.
pub(crate) fn header_paths(alloc: Global, headers: &[Header]) -> Result<Vec<Vec<Name>>, AllocError>
    ensures { IfOk result (λ v. map path_of v.items ≡ map path_in (map header_in headers.now)) }
{
    let mut paths = Vec::new(alloc);
    for h in headers {
        paths.push(copy_path(alloc, &h.path)?)?;
    }
    Ok(paths)
}
