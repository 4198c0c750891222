//! What ingress, egress and compute checksum of a well-typed program use.

ghost use Rattle.exit_names.specs.Laws.{ControlsOwn};

/// Ingress and egress use variables, actions and tables of their own alone, and nothing leaves compute
/// checksum.
pub fn controls_own()
    ensures { ControlsOwn }
{}
