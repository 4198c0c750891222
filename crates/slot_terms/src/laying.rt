//! Places of paths: looked for, made and forgotten.

ghost use Rattle.std.specs.Prelude.{◌≡◌, ◌∷◌, ◌++◌, [], length, map, take, IfErr, IfOk, OnErr, OnOk};
ghost use Rattle.std.specs.Option.{option_map};
ghost use Rattle.p4_resolved.specs.Lent.{lent};
ghost use Rattle.slot_terms.specs.declared.fault.Fault.TheVariants.{Unknown};
ghost use Rattle.lex_text.specs.Names.{same_path};
ghost use Rattle.slot_terms.specs.Hashes.{hash_of, path_hash};
ghost use Rattle.slot_terms.specs.Places.{IsAdded, IsFull, IsLaid, header_number, path_of, place_at, place_of, places_of};

use crate::fault::Fault;
use crate::hashes::path_hash;
use crate::places::{Place, Places};
use lex_text::Name;
use p4_values::same_path;
use std::alloc::{AllocError, Global};

/// Whether the path of a row is this one, by the hashes of both first.
#[inline(always)]
fn is_path_of(known: u64, row: &Place, hash: u64, path: &[Name]) -> bool
    requires known { known ≡ hash_of row.now }
    requires hash { hash ≡ path_hash path.now }
    ensures { result ≡ same_path row.now.path.items path.now }
{
    known == hash && same_path(&row.path, path)
}

/// The first place of a path.
pub fn place_at<'a>(places: &'a Places, path: &[Name]) -> Option<&'a Place>
    ensures { option_map place_of (lent result) ≡ place_at (places_of places.now).rows path.now }
{
    let hash = path_hash(path);
    for i in 0..places.rows.len() {
        if is_path_of(places.hashes[i], &places.rows[i], hash, path) {
            return Some(&places.rows[i]);
        }
    }
    None
}

/// How many places there are.
pub fn row_count(places: &Places) -> usize
    ensures { result ≡ length (places_of places.now).rows }
{
    places.rows.len()
}

/// Forgets the places behind the first few, and goes back to the slot that was the next one.
pub fn cut_back(places: &mut Places, count: usize, next: u32)
    ensures { places_of places.new ≡ record (places_of places.old) { rows = take count (places_of places.old).rows; next = next } }
{
    places.rows.truncate(count);
    places.hashes.truncate(count);
    places.next = next;
}

/// The number of the header at a path. What 32 bits do not count no memory holds: that is told as want
/// of memory.
pub fn header_number(headers: &[Vec<Name>], path: &[Name]) -> Result<Option<u32>, AllocError>
    ensures { IfOk result (λ n. header_number (map path_of headers.now) path.now ≡ n) }
{
    for i in 0..headers.len() {
        if same_path(&headers[i], path) {
            return match u32::try_from(i) {
                Ok(i) => Ok(Some(i)),
                Err(_) => Err(AllocError),
            };
        }
    }
    Ok(None)
}

/// No path has a place yet; the headers are numbered in their order, and there are so many slots.
pub fn no_places(alloc: Global, headers: Vec<Vec<Name>>, size: u32) -> Places
    ensures laid { IsLaid (places_of result) }
    ensures rows { (places_of result).rows ≡ [] }
    ensures headers { (places_of result).headers ≡ map path_of headers.items }
    ensures size { (places_of result).size ≡ size }
{
    Places {
        rows: Vec::new(alloc),
        hashes: Vec::new(alloc),
        headers,
        next: 0,
        size,
    }
}

/// The hashes of places.
fn row_hashes(alloc: Global, rows: &[Place]) -> Result<Vec<u64>, AllocError>
    ensures { IfOk result (λ v. v.items ≡ map hash_of rows.now) }
{
    let mut hashes = Vec::new(alloc);
    for row in rows {
        hashes.push(path_hash(&row.path))?;
    }
    Ok(hashes)
}

/// These places in this order, with the slot of the next one and how many slots there are.
pub fn places_in_order(
    alloc: Global,
    rows: Vec<Place>,
    headers: Vec<Vec<Name>>,
    next: u32,
    size: u32,
) -> Result<Places, AllocError>
    ensures { IfOk result (λ m. places_of m
        ≡ record { rows = map place_of rows.items; headers = map path_of headers.items; next = next; size = size }) }
{
    let hashes = row_hashes(alloc, &rows)?;
    Ok(Places {
        rows,
        hashes,
        headers,
        next,
        size,
    })
}

/// A row behind the others, with its hash.
fn push_row(places: &mut Places, place: Place) -> Result<(), AllocError>
    ensures rows { OnOk result (places_of places.new ≡ record (places_of places.old) { rows = (places_of places.old).rows ++ place_of place ∷ [] }) }
    ensures kept { OnErr result (places_of places.new ≡ places_of places.old) }
{
    let count = places.rows.len();
    places.hashes.push(path_hash(&place.path))?;
    match places.rows.push(place) {
        Err(_) => {
            places.hashes.truncate(count);
            Err(AllocError)
        }
        Ok(()) => Ok(()),
    }
}

/// A path gets the next slot, whatever the other places are.
fn push_place(
    places: &mut Places,
    path: Vec<Name>,
    width: u8,
    header: Option<u32>,
) -> Result<u32, Fault>
    ensures added { IfOk result (λ slot. IsAdded (places_of places.old) (places_of places.new) path.items width header slot) }
    ensures full { IfErr result (λ f. f ≡ Unknown → IsFull (places_of places.old) path.items) }
    ensures kept { OnErr result (places_of places.new ≡ places_of places.old) }
{
    if place_at(places, &path).is_some() || places.next >= places.size {
        return Err(Fault::Unknown);
    }
    let slot = places.next;
    let place = Place {
        path,
        slot,
        width,
        header,
    };
    push_row(places, place)?;
    places.next = slot + 1;
    Ok(slot)
}

/// A path gets the next slot, which is the answer: `Unknown` where it has a place already, or no slot
/// is left. After an `Err` the places are as they were.
pub fn add_place(
    places: &mut Places,
    path: Vec<Name>,
    width: u8,
    header: Option<u32>,
) -> Result<u32, Fault>
    ensures added { IfOk result (λ slot. IsAdded (places_of places.old) (places_of places.new) path.items width header slot) }
    ensures laid { IsLaid (places_of places.old) → OnOk result (IsLaid (places_of places.new)) }
    ensures full { IfErr result (λ f. f ≡ Unknown → IsFull (places_of places.old) path.items) }
    ensures kept { OnErr result (places_of places.new ≡ places_of places.old) }
{
    let slot = push_place(places, path, width, header)?;
    Ok(slot)
}
