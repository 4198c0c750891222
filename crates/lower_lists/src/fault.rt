//! Why a property has no flat code.

ghost use Rattle.std.specs.Prelude.{◌≡◌};
ghost use Rattle.lower_lists.specs.declared.fault.LowerFault.TheVariants.{NoMemory};

use std::alloc::AllocError;

/// Why a property has no flat code.
#[derive(Clone, Copy, Debug, PartialEq, Eq)]
pub enum LowerFault {
    /// The weight is over 16,384.
    TooLarge { weight: u32 },
    NoMemory,
}

impl From<AllocError> for LowerFault {
    ghost from_gives = { λ _ e. e ≡ NoMemory };

    fn from(_e: AllocError) -> LowerFault {
        LowerFault::NoMemory
    }
}
