//! The law over any monitor, any lowering of it, any program and any network.

ghost use Rattle.p4_tree.specs.Tree.{Program};
ghost use Rattle.network_run.specs.Network.{Wiring, IsWiring};
ghost use Rattle.linked_programs.specs.Gives.{Halves};
ghost use Rattle.linked_programs.specs.Lowered.{Lowered};
ghost use Rattle.linked_hosts.specs.Linkable.{Linkable};
ghost use Rattle.tree_linkage.specs.Trees.{AreLinkedTrees, CanLink, IsLoweredFor, LinkedFormIsGiven, linked_form};

use monitor_laws::LinkedMonitor;

/// Of a program that can be linked, what is linked is well typed, with own names and two structs.
pub fn linked_form_is_given()
    ensures { LinkedFormIsGiven }
{}

/// The linked trees of a program that was given are a linkage of it, with its exits, and the property, in
/// every valid world and after every number of steps; and they can be spelled.
pub fn linked_trees_are_a_linkage<L: LinkedMonitor>()
    ensures { (x : L.Given) (l : Lowered) (h : Halves) (p : Program) (k : Linkable (linked_form p)) (net : Wiring) →
        L.IsGiven x → CanLink p → IsLoweredFor l (L.monitor x) h p k net (L.IsFitView x) → IsWiring net →
        AreLinkedTrees l (L.monitor x) h p k net (L.IsVariable x) (L.IsFitContents x) }
{}
