ghost use Rattle.linked_starts.specs.Starts.{LinkedCanBeLoaded};

use p4_parser_states::laws::reaches_is_exact;

/// The linked program of each switch can be loaded, with the map that the property lowers to.
pub fn linked_can_be_loaded()
    ensures { LinkedCanBeLoaded }
{
    reaches_is_exact();
}
