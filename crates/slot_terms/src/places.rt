//! Which slots paths have.

ghost use Rattle.std.specs.Prelude.{◌≡◌, map};
ghost use Rattle.slot_terms.specs.Hashes.{hash_of};

use lex_text::Name;

/// Where a path has its number: the slot, how many bits it has, and of a header's field the number of
/// the header.
#[derive(Drop)]
pub struct Place {
    pub path: Vec<Name>,
    pub slot: u32,
    pub width: u8,
    pub header: Option<u32>,
}

/// The places in sight, the paths of the headers by their numbers, the slot of the next place, and how
/// many slots there are.
#[derive(Drop)]
pub struct Places {
    pub(crate) rows: Vec<Place>,
    /// The hash of each row's path: a path is looked for among these.
    pub(crate) hashes: Vec<u64>,
    pub headers: Vec<Vec<Name>>,
    pub next: u32,
    pub size: u32,
    ghost hashed: { hashes.items ≡ map hash_of rows.items },
}
