//! Laws of well-typed programs, each the contract of a function that does nothing. `specs/Faults`
//! says them.

ghost use Rattle.p4_types.specs.Faults.{AnsweredIsBroken};

/// The rule that is answered is broken at that place.
pub fn answered_is_broken()
    ensures { AnsweredIsBroken }
{}
