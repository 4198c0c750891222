//! Why a property is refused.

ghost use Rattle.std.specs.Prelude.{◌≡◌};
ghost use Rattle.indus_types.specs.declared.fault.TypeFault.TheVariants.{NoMemory};

use indus_rules::Rule;
use std::alloc::AllocError;

/// Why a property is refused.
#[derive(Clone, Copy, Debug, PartialEq, Eq)]
pub enum TypeFault {
    /// The rule is broken at this token.
    Type_ { place: u32, rule: Rule },
    NoMemory,
}

impl From<AllocError> for TypeFault {
    ghost from_gives = { λ _ e. e ≡ NoMemory };

    fn from(_e: AllocError) -> TypeFault {
        TypeFault::NoMemory
    }
}
