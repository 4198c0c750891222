//! Why bytes are no value, and why a value is not what it should be.

use lex_text::Name;
use std::alloc::{AllocError, AllocFailed};
use thiserror::Error;

/// Why bytes are no value.
#[derive(Clone, Copy, Debug, PartialEq, Eq, Error)]
pub enum JsonFault {
    /// Memory ran out; this says nothing of the bytes.
    #[error("no memory")]
    NoMemory,
    /// The bytes are not one JSON value that is nested at most 127 deep.
    #[error("no JSON value")]
    Json,
}

/// Why a value is not of the form that is wanted.
#[derive(Debug, Drop, Error)]
pub enum ShapeFault {
    /// Memory ran out; this says nothing of the value.
    #[error("no memory")]
    NoMemory,
    /// What is at this path is unknown, missing or ill-formed.
    #[error("another value is wanted")]
    Shape { path: Name },
}

impl From<AllocError> for ShapeFault {
    ghost use Rattle.std.specs.Prelude.{◌≡◌};
    ghost use Rattle.json_parts.specs.declared.fault.ShapeFault.TheVariants.{NoMemory};

    ghost from_gives = { λ _ fault. fault ≡ NoMemory };

    fn from(_refused: AllocError) -> ShapeFault {
        ShapeFault::NoMemory
    }
}

impl<T: Drop> From<AllocFailed<T>> for ShapeFault {
    ghost use Rattle.std.specs.Prelude.{◌≡◌};
    ghost use Rattle.json_parts.specs.declared.fault.ShapeFault.TheVariants.{NoMemory};

    ghost from_gives = { λ _ fault. fault ≡ NoMemory };

    fn from(_refused: AllocFailed<T>) -> ShapeFault {
        ShapeFault::NoMemory
    }
}
