//! Why a file is no capture that can be read.

ghost use Rattle.std.specs.Prelude.{◌≡◌};
ghost use Rattle.pcap_io.specs.declared.fault.CaptureFault.TheVariants.{NoMemory};

use std::alloc::{AllocError, AllocFailed};
use thiserror::Error;

/// The first thing that is wrong with a file, from its first byte on. `at` is the offset of the
/// record's header in the file, in bytes.
#[derive(Clone, Copy, Debug, PartialEq, Eq, Error)]
pub enum CaptureFault {
    /// Memory ran out; this says nothing of the records.
    #[error("no memory")]
    NoMemory,
    /// The file has fewer bytes than a file header, which has 24.
    #[error("shorter than a capture's header")]
    ShortHeader,
    /// The first four bytes are no magic number of this format.
    #[error("does not begin as a capture")]
    BadMagic,
    /// The version is another than 2.4.
    #[error("not of version 2.4")]
    BadVersion,
    /// The link type is another than 1.
    #[error("not of Ethernet frames")]
    NotEthernet,
    /// The file ends inside a record's header of 16 bytes, or inside its captured bytes.
    #[error("the record at {at} is cut off")]
    TornRecord { at: u64 },
    /// A record's captured length is over 65,535.
    #[error("the record at {at} is too long")]
    TooLong { at: u64 },
}

impl From<AllocError> for CaptureFault {
    ghost from_gives = { λ _ fault. fault ≡ NoMemory };

    fn from(_refused: AllocError) -> CaptureFault {
        CaptureFault::NoMemory
    }
}

impl<T: Drop> From<AllocFailed<T>> for CaptureFault {
    ghost from_gives = { λ _ fault. fault ≡ NoMemory };

    fn from(_refused: AllocFailed<T>) -> CaptureFault {
        CaptureFault::NoMemory
    }
}
