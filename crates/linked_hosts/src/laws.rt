//! What holds of the linked programs of a well-typed program, for any lowering.

ghost use Rattle.linked_hosts.specs.Linkable.{LinkableHasOwnRoots, LinkedHasParts, LinkedIsHost, WellTypedIsLinkable};
ghost use Rattle.linked_hosts.specs.Spelled.{LinkedIsSpelled};

use monitor_laws::LoweredMonitor;

/// A well-typed program with own names that can be spelled, with a struct of headers and another of
/// metadata, is ready to be linked.
pub fn well_typed_is_linkable()
    ensures { WellTypedIsLinkable }
{}

/// The names that ingress and egress give their parameters are the program's own.
pub fn linkable_has_own_roots()
    ensures { LinkableHasOwnRoots }
{}

/// The parts of its linked program are the linked parts.
pub fn linked_has_parts<L: LoweredMonitor>()
    ensures { LinkedHasParts L.Tele L.Sensors L.Contents }
{}

/// Where it is forwarding, the linked programs of all switches are what the law of linkage is about.
pub fn linked_is_host<L: LoweredMonitor>()
    ensures { (x : L.Given) → LinkedIsHost L.Tele L.Sensors L.Contents (L.IsFitView x) }
{}

/// Its linked program can be spelled.
pub fn linked_is_spelled()
    ensures { LinkedIsSpelled }
{}
