//! Why a store or a sink did not do what was asked.

ghost use Rattle.std.specs.Prelude.{◌≡◌};
ghost use Rattle.outside.specs.declared.stops.StoreStop.TheVariants.{NoMemory};

use std::alloc::AllocError;

/// Why a store did not read or write.
#[derive(Clone, Copy, Debug, PartialEq, Eq)]
pub enum StoreStop {
    /// No such name is held. Only a read answers it.
    Missing,
    /// The file is longer than the limit. Only a read answers it.
    TooLong,
    /// The store failed, and its count of read or write faults rose.
    Failed,
    /// Memory ran out.
    NoMemory,
}

/// Why a sink did not take a whole piece.
#[derive(Clone, Copy, Debug, PartialEq, Eq)]
pub enum SinkStop {
    /// The sink failed, and its count of faults rose.
    Failed,
}

impl From<AllocError> for StoreStop {
    ghost from_gives = { λ _ e. e ≡ NoMemory };

    fn from(_: AllocError) -> Self {
        StoreStop::NoMemory
    }
}
