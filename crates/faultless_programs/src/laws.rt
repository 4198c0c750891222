//! What it gives that a program has no fault.

ghost use Rattle.faultless_programs.specs.FieldPaths.{FoundFieldsAreDeclared};
ghost use Rattle.faultless_programs.specs.FoundViews.{FoundViewsAreOwn, FoundViewsFit};
ghost use Rattle.faultless_programs.specs.Given.{NoFaultCanLink};
ghost use Rattle.faultless_programs.specs.Within.{FaultlessIsWellTyped, LinkedInRoom, RoomStays, RoomSuffices};

use p4_parser_states::laws::reaches_is_exact;

/// A program in which no name is taken can be linked.
pub fn no_fault_can_link()
    ensures { NoFaultCanLink }
{}

/// A field that is found with a width is one that the program declares with it.
pub fn found_fields_are_declared()
    ensures { FoundFieldsAreDeclared }
{}

/// Where all header variables are found, they fit in each store that keeps to what the program without
/// exits declares.
pub fn found_views_fit()
    ensures { FoundViewsFit }
{}

/// They read the program's own fields and headers.
pub fn found_views_are_own()
    ensures { FoundViewsAreOwn }
{}

/// A program that leaves room for a monitor leaves it without exits too, and with a struct for each role.
pub fn room_stays()
    ensures { RoomStays }
{}

/// Room and weight keep what is added up within the limits of a switch.
pub fn room_suffices()
    ensures { RoomSuffices }
{}

/// So each linked program is well typed.
pub fn linked_in_room()
    ensures { LinkedInRoom }
{
    reaches_is_exact();
}

/// Each linked program of a program without fault is well typed.
pub fn faultless_is_well_typed()
    ensures { FaultlessIsWellTyped }
{
    reaches_is_exact();
}
