//! What is sure of the sizes of a well-typed program, as the contract of a function that does nothing.

ghost use Rattle.slot_bounds.specs.Bounds.{ProgramsAreBounded};

/// The deparser over slots of a well-typed program emits no more bits than all headers have, each once,
/// which are few enough for a frame; and, where no point stands in a name, a passage gives no more
/// digests than the rules count.
pub fn programs_are_bounded()
    ensures { ProgramsAreBounded }
{}
