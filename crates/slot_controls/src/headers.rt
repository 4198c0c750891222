//! Where headers have their slots.

ghost use Rattle.std.specs.Prelude.{◌<◌, ◌+◌};

/// The slots of a header's fields: the first one, and how many.
#[derive(Clone, Copy)]
pub struct HeaderSlots {
    pub first: u32,
    pub count: u32,
    ghost few: { first + count < 4294967296 },
}
