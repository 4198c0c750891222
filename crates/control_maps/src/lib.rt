//! The map from generated tables to control variables.
//!
//! The crate has definitions and laws, and no code. `specs/Maps` says what the tables of a map hold by
//! their names when a switch is loaded with contents and when a variable is set: `map_controls`, as a
//! machine of the network's run takes it. `specs/Numbers` says it by the numbers of a switch's tables, and
//! what is asked of a switch's map and of new contents.
#![tactic(auto)]

ghost use Rattle.control_maps.specs.Laws.{ContentsAreTaken, HeldIsLoaded, MapsStay, NumbersAreNames, OthersAreLeft};

/// Contents that are put into the map's tables by numbers are put into them by names, and the map stays
/// one. Tables that hold their contents are loaded with them, contents stand in the map's tables alone, and
/// a table takes contents of its variable's shape.
pub fn maps_are_maps()
    ensures numbers { NumbersAreNames }
    ensures stay { MapsStay }
    ensures loaded { HeldIsLoaded }
    ensures others { OthersAreLeft }
    ensures taken { ContentsAreTaken }
{}
