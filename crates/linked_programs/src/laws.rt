//! What holds of linked programs, for any lowering.

ghost use Rattle.linked_programs.specs.Bare.{PromisesCanBeKept};
ghost use Rattle.linked_programs.specs.Spells.{LinkedCanBeSpelled};
ghost use Rattle.linked_programs.specs.Woven.{PartsAreLinked};

use monitor_laws::LoweredMonitor;

/// What of a linked program runs are the linked parts, and what it declares joins the program's own and
/// the monitor's.
pub fn parts_are_linked<L: LoweredMonitor>()
    ensures { PartsAreLinked L.Tele L.Sensors L.Contents }
{}

/// A linked program can be spelled where the given one and what the lowering gives can be.
pub fn linked_can_be_spelled()
    ensures { LinkedCanBeSpelled }
{}

/// What is asked of a lowering's trees can be kept: a lowering with nothing but the mark and the flags
/// keeps it.
pub fn promises_can_be_kept<L: LoweredMonitor>()
    ensures { PromisesCanBeKept L.Tele L.Sensors L.Contents }
{}
