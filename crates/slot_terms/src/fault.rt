//! Why nothing over slots is made.

ghost use Rattle.std.specs.Prelude.{◌≡◌};
ghost use Rattle.slot_terms.specs.declared.fault.Fault.TheVariants as fault;

use std::alloc::AllocError;

/// Why nothing over slots is made of a tree.
#[derive(Clone, Copy, Debug, PartialEq, Eq)]
pub enum Fault {
    /// Memory is wanting.
    NoMemory,
    /// A path has no place, or no slot is left for one; or there is no form over slots.
    Unknown,
}

impl From<AllocError> for Fault {
    ghost from_gives = { λ _ f. f ≡ fault.NoMemory };

    fn from(_error: AllocError) -> Fault {
        Fault::NoMemory
    }
}
