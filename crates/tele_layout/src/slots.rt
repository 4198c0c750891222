//! Where the variables stand.

ghost use Rattle.std.specs.Prelude.{◌≡◌};
ghost use Rattle.tele_layout.specs.Layouts.{slot_length};

/// Where a variable stands.
#[derive(Clone, Copy, Debug, PartialEq, Eq)]
pub struct Slot {
    /// The variable's place among all declarations.
    pub variable: u32,
    /// The bit at which it begins.
    pub at: u32,
    /// The bits of a value.
    pub width: u8,
    /// How many items a list has room for; 0 for a scalar.
    pub count: u8,
}

/// Where the variables stand, one directly behind the other.
#[derive(Debug)]
pub struct Layout {
    /// The first byte.
    pub first: u8,
    /// How many bytes there are.
    pub bytes: u16,
    /// The variables, from the second byte on.
    pub slots: Vec<Slot>,
}

impl Drop for Layout {
    fn drop(self) {
        let Layout {
            first: _,
            bytes: _,
            slots: _slots,
        } = self;
    }
}

/// How many bits the variable takes.
pub fn length_of(slot: Slot) -> u32
    ensures { result ≡ slot_length slot.width slot.count }
{
    if slot.count == 0 {
        slot.width as u32
    } else {
        8 + slot.count as u32 * slot.width as u32
    }
}
