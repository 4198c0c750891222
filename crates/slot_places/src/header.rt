//! Headers over slots.

ghost use Rattle.std.specs.Prelude.{◌≡◌, ◌+◌, ◌<◌, true, length};
ghost use Rattle.slot_places.specs.ProgramPlaces.{are_widths};

/// A header over slots: the first slot of its fields, and their widths.
#[derive(Drop)]
pub struct SlotHeader {
    pub first: u32,
    pub widths: Vec<u8>,
    ghost sound: { are_widths widths.items ≡ true },
    ghost few: { first + length widths.items < 4294967296 },
}
