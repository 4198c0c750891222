//! Why a property has no layout.

ghost use Rattle.std.specs.Prelude.{◌≡◌};
ghost use Rattle.tele_layout.specs.declared.fault.LayoutFault.TheVariants.{NoMemory};

use std::alloc::AllocError;

/// Why a property has no layout.
#[derive(Clone, Copy, Debug, PartialEq, Eq)]
pub enum LayoutFault {
    /// The telemetry needs more bytes than there is room for.
    RoomShort { need: u64, room: u16 },
    NoMemory,
}

impl From<AllocError> for LayoutFault {
    ghost from_gives = { λ _ e. e ≡ NoMemory };

    fn from(_e: AllocError) -> LayoutFault {
        LayoutFault::NoMemory
    }
}
