//! Bits of a frame that were not consumed.

ghost use Rattle.std.specs.Prelude.{◌≤◌};

/// The bits of bytes but for the first few of them.
pub struct Rest {
    pub bytes: Vec<u8>,
    pub skip: u8,
    ghost few: { skip ≤ 7 },
}

impl Drop for Rest {
    fn drop(self) {
        let Rest {
            bytes: _bytes,
            skip: _,
        } = self;
    }
}
