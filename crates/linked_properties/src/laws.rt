//! A program without fault, linked with a whole property.

ghost use Rattle.linked_properties.specs.Counted.{RoomIsCounted};
ghost use Rattle.linked_properties.specs.Linked.{FaultlessIsGiven, FaultlessIsLinked, TreesKeepRules};
ghost use Rattle.linked_properties.specs.Shown.{FoundFieldsAreShown, FoundViewsAreWords};

use p4_parser_states::laws::reaches_is_exact;

/// The telemetry that is added to a frame has the bytes of the property's telemetry.
pub fn room_is_counted()
    ensures { RoomIsCounted }
{}

/// Header variables that are found in a program are in what is linked of it.
pub fn found_fields_are_shown()
    ensures { FoundFieldsAreShown }
{}

/// What they read can be spelled.
pub fn found_views_are_words()
    ensures { FoundViewsAreWords }
{}

/// A property without fault in a program is one that is lowered there.
pub fn faultless_is_given()
    ensures { FaultlessIsGiven }
{}

/// Its monitor's trees keep the promises for the rules of P4.
pub fn trees_keep_rules()
    ensures { TreesKeepRules }
{}

/// The linked programs of all switches are well typed, a linkage of the given program and the property, and
/// texts; their telemetry is the property's, and the names that they add are the monitor's.
pub fn faultless_is_linked()
    ensures { FaultlessIsLinked }
{
    reaches_is_exact();
}
