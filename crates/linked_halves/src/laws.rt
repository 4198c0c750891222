// The laws of the halves, for any monitor.
ghost use Rattle.std.specs.Prelude.{ℕ};
ghost use Rattle.p4_meaning.specs.Parts.{Parts};
ghost use Rattle.network_run.specs.Network.{Wiring};
ghost use Rattle.linked_halves.specs.Widths.{ViewsHaveWidths};
ghost use Rattle.linked_halves.specs.LinkedParts.{Declarations};
ghost use Rattle.linked_halves.specs.Given.{IsHost, KeepsHalves, IsLinkage};

use monitor_laws::LinkedMonitor;

/// A linked enter does what the forwarding program's enter does, and the entry part; a linked leave does
/// what its leave does, and the exit part: for every forwarding program, network and monitor.
pub fn monitored_halves_agree<L: LinkedMonitor>()
    ensures { (g : L.Given) (f : Parts) (net : Wiring) (d : (switch : ℕ) → Declarations) → L.IsGiven g → IsHost (L.monitor g) (L.IsFitView g) f net d →
        KeepsHalves (L.monitor g) f net d (L.IsFitTele g) (L.Keeps g) (L.IsVariable g) (L.IsFitContents g) }
{}

/// So the linked programs are a linkage of the forwarding program and the property, in every valid world
/// and after every number of steps.
pub fn monitored_parts_are_a_linkage<L: LinkedMonitor>()
    ensures { (g : L.Given) (f : Parts) (net : Wiring) (d : (switch : ℕ) → Declarations) → L.IsGiven g → IsHost (L.monitor g) (L.IsFitView g) f net d →
        IsLinkage (L.monitor g) f net d (L.IsFitTele g) (L.Keeps g) (L.IsVariable g) (L.IsFitContents g) }
{}

/// Header variables that read fields which a program declares find words of the declared widths, where
/// the store keeps to them.
pub fn views_have_their_widths()
    ensures { ViewsHaveWidths }
{}
