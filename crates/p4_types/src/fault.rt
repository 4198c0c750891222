//! Why a program is refused.

ghost use Rattle.std.specs.Prelude.{◌≡◌};
ghost use Rattle.p4_types.specs.declared.fault.ProgramTypeFault.TheVariants.{NoMemory};

use p4_statement_rules::rule::ProgramRule;
use std::alloc::AllocError;

/// Why a program is refused.
#[derive(Clone, Copy, Debug, PartialEq, Eq)]
pub enum ProgramTypeFault {
    /// The rule is broken at this token.
    Type_ { at: u32, rule: ProgramRule },
    NoMemory,
}

impl From<AllocError> for ProgramTypeFault {
    ghost from_gives = { λ _ e. e ≡ NoMemory };

    fn from(_e: AllocError) -> ProgramTypeFault {
        ProgramTypeFault::NoMemory
    }
}
