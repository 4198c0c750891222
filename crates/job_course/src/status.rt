//! What the call answers, and why a command goes no further.

use std::alloc::{AllocError, AllocFailed};

/// What the call answers. The program ends with the number of its place, from 0 on.
#[derive(Clone, Copy, Debug, PartialEq, Eq)]
pub enum Status {
    Done,
    BadWords,
    ReadFault,
    BadProperty,
    NotLinked,
    BadProgram,
    BadNetwork,
    BadCapture,
    WriteFault,
    NoMemory,
}

/// What kind of file a refusal is of.
#[derive(Clone, Copy, Debug, PartialEq, Eq)]
pub enum Area {
    Property,
    Program,
    Network,
    Capture,
}

impl Area {
    ghost use Rattle.std.specs.Prelude.{◌≡◌};
    ghost use Rattle.job_course.specs.Lines.{area_word, area_status};

    /// The word with which its refusal lines begin.
    pub fn word(self) -> &'static str
        ensures { result.now ≡ area_word self }
    {
        match self {
            Area::Property => "property",
            Area::Program => "program",
            Area::Network => "network",
            Area::Capture => "capture",
        }
    }

    /// The status of its refusals.
    pub fn status(self) -> Status
        ensures { result ≡ area_status self }
    {
        match self {
            Area::Property => Status::BadProperty,
            Area::Program => Status::BadProgram,
            Area::Network => Status::BadNetwork,
            Area::Capture => Status::BadCapture,
        }
    }
}

/// A refusal, with the line that says so.
#[derive(Drop)]
pub struct Refusal {
    pub status: Status,
    pub line: String,
}

/// Why a command goes no further.
#[derive(Drop)]
pub enum Stop {
    Refused(Refusal),
    /// Memory is wanting.
    Starved,
}

impl From<AllocError> for Stop {
    ghost use Rattle.std.specs.Prelude.{◌≡◌};
    ghost use Rattle.job_course.specs.declared.status.Stop.TheVariants.{Starved};

    ghost from_gives = { λ _ s. s ≡ Starved };

    fn from(_error: AllocError) -> Stop {
        Stop::Starved
    }
}

impl<T: Drop> From<AllocFailed<T>> for Stop {
    ghost use Rattle.std.specs.Prelude.{◌≡◌};
    ghost use Rattle.job_course.specs.declared.status.Stop.TheVariants.{Starved};

    ghost from_gives = { λ _ s. s ≡ Starved };

    fn from(_error: AllocFailed<T>) -> Stop {
        Stop::Starved
    }
}
