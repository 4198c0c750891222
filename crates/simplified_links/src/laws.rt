//! The laws, contracts of functions that do nothing.

ghost use Rattle.simplified_links.specs.Laws.{SimplyLinkedCanBeLoaded, SimplyLinkedStand};

use p4_parser_states::laws::reaches_is_exact;

/// The tables of the given program, and contents of control variables, can be loaded into them.
pub fn simply_linked_can_be_loaded()
    ensures { SimplyLinkedCanBeLoaded }
{
    reaches_is_exact();
}

/// Passages, tables and registers are those of a linker's programs.
pub fn simply_linked_stand()
    ensures { SimplyLinkedStand }
{}
