//! What the parts of a well-typed program are.

ghost use Rattle.own_programs.specs.Laws.{LoweredProgramsForward, OwnProgramsForward};

/// The parts of a well-typed program that uses no name of the monitor's, has no `exit` and no `return`,
/// and tells no reports are a forwarding program. So are those of the program of the same meaning without
/// `exit` and `return`, where no name of the given one begins with `hydra_`.
pub fn own_programs_are_forwarding()
    ensures own { OwnProgramsForward }
    ensures lowered { LoweredProgramsForward }
{}
