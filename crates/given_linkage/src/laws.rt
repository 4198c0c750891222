//! The law over any monitor, any program and any network.

ghost use Rattle.std.specs.Prelude.{ℕ};
ghost use Rattle.p4_tree.specs.Tree.{Program};
ghost use Rattle.network_run.specs.Network.{Wiring};
ghost use Rattle.linked_halves.specs.LinkedParts.{Declarations};
ghost use Rattle.given_linkage.specs.Given.{IsLinkedHost, AreLinkedPrograms, IsLinkageOfGiven};

use monitor_laws::LinkedMonitor;

/// Programs whose parts are the linked parts of a program without its exits are a linkage of that
/// program with them and the property, in every valid world and after every number of steps.
pub fn linked_programs_are_a_linkage<L: LinkedMonitor>()
    ensures { (g : L.Given) (p : Program) (net : Wiring) (d : (switch : ℕ) → Declarations) (q : (switch : ℕ) → Program) →
        L.IsGiven g → IsLinkedHost (L.monitor g) p net d (L.IsFitView g) → AreLinkedPrograms (L.monitor g) p net d q →
        IsLinkageOfGiven (L.monitor g) p net d q (L.IsVariable g) (L.IsFitContents g) }
{}
