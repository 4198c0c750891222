//! What a deparser over slots emits. Each law is the contract of a function that does nothing.

ghost use Rattle.slot_deparsers.specs.Emission.{DeparsersEmit};

/// The bits of slots are those that a program's deparser emits.
pub fn deparsers_emit()
    ensures { DeparsersEmit }
{}
