//! Why a value is no network.

ghost use Rattle.std.specs.Prelude.{◌≡◌};
ghost use Rattle.network_file.specs.declared.fault.NetworkFault.TheVariants.{NoMemory};

use json_parts::ShapeFault;
use lex_text::Name;
use std::alloc::{AllocError, AllocFailed};
use thiserror::Error;

/// Why a value is no network. Each kind is looked for in the whole file before the next, and `path`
/// is the first place of the file that has it.
#[derive(Debug, Drop, Error)]
pub enum NetworkFault {
    /// Memory ran out; this says nothing of the value.
    #[error("no memory")]
    NoMemory,
    /// What is at this path is unknown, missing or ill-formed.
    #[error("another value is wanted")]
    Shape { path: Name },
    /// The switch has the name of an earlier one.
    #[error("a name stands twice")]
    NameTwice { path: Name },
    /// The link names no switch.
    #[error("a link's name is no switch")]
    NoSuchSwitch { path: Name },
    /// A port of the link is one of an earlier link too, or both ends of the link are one port.
    #[error("a port has two links")]
    PortTwice { path: Name },
    /// A port of the link is over 510.
    #[error("a port is out of range")]
    BadPort { path: Name },
    /// There are no switches, or more than 256.
    #[error("too few or too many switches")]
    Limit,
}

impl From<ShapeFault> for NetworkFault {
    ghost use Rattle.network_file.specs.Shape.{fault_of};

    ghost from_gives = { λ shape fault. fault ≡ fault_of shape };

    fn from(shape: ShapeFault) -> NetworkFault {
        match shape {
            ShapeFault::NoMemory => NetworkFault::NoMemory,
            ShapeFault::Shape { path } => NetworkFault::Shape { path },
        }
    }
}

impl From<AllocError> for NetworkFault {
    ghost from_gives = { λ _ fault. fault ≡ NoMemory };

    fn from(_refused: AllocError) -> NetworkFault {
        NetworkFault::NoMemory
    }
}

impl<T: Drop> From<AllocFailed<T>> for NetworkFault {
    ghost from_gives = { λ _ fault. fault ≡ NoMemory };

    fn from(_refused: AllocFailed<T>) -> NetworkFault {
        NetworkFault::NoMemory
    }
}
