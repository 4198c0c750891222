//! Why a value is no schedule.

ghost use Rattle.std.specs.Prelude.{◌≡◌};
ghost use Rattle.schedule_file.specs.declared.fault.ScheduleFault.TheVariants.{NoMemory};

use std::alloc::{AllocError, AllocFailed};
use table_faults::TableFault;
use thiserror::Error;

/// Why a value is no schedule. `at` is the number of the first member of the array that has a fault,
/// from 0 on; a number of more than 32 bits is told as the greatest that has 32. Of several faults of
/// one member the first in this order is answered.
#[derive(Debug, Drop, Error)]
pub enum ScheduleFault {
    /// Memory ran out; this says nothing of the value.
    #[error("no memory")]
    NoMemory,
    /// The member is no event, or the value is no array.
    #[error("no event")]
    Shape { at: u32 },
    /// There is no such packet.
    #[error("no such packet")]
    NoSuchPacket { at: u32 },
    /// The member sets no control variable; the fault's path begins at the member.
    #[error("no control variable is set")]
    Control { at: u32, fault: TableFault },
    /// Behind the member more than 1,024 packets wait.
    #[error("too many packets wait")]
    Queued { at: u32 },
}

impl From<AllocError> for ScheduleFault {
    ghost from_gives = { λ _ fault. fault ≡ NoMemory };

    fn from(_refused: AllocError) -> ScheduleFault {
        ScheduleFault::NoMemory
    }
}

impl<T: Drop> From<AllocFailed<T>> for ScheduleFault {
    ghost from_gives = { λ _ fault. fault ≡ NoMemory };

    fn from(_refused: AllocFailed<T>) -> ScheduleFault {
        ScheduleFault::NoMemory
    }
}
