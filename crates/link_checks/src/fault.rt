//! Why a program is not linked with a property.

ghost use Rattle.std.specs.Prelude.{◌≡◌};
ghost use Rattle.link_checks.specs.declared.fault.LinkFault.TheVariants.{NoMemory};

use lex_text::Name;
use std::alloc::AllocError;

/// Why a program is not linked with a property.
#[derive(Debug, Drop)]
pub enum LinkFault {
    /// The program has no such field or header. `name`: the path of a header variable, as written.
    NoSuchField { name: Name },
    /// What the program has there is of another width, or of another kind.
    FieldWidth { name: Name },
    /// The program has a name that begins with `hydra_`, or tells digests to the receiver of reports;
    /// the name is that of the first such place of its text, and a receiver's is its digits.
    NameTaken { name: Name },
    /// The telemetry needs more bytes than there is room for.
    RoomShort { need: u64, room: u16 },
    /// The property is too large.
    TooLarge { weight: u32 },
    NoMemory,
}

impl From<AllocError> for LinkFault {
    ghost from_gives = { λ _ e. e ≡ NoMemory };

    fn from(_e: AllocError) -> LinkFault {
        LinkFault::NoMemory
    }
}
