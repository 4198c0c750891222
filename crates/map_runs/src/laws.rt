ghost use Rattle.map_runs.specs.Linked.{NumbersAreLookups};
ghost use Rattle.map_runs.specs.Named.{LoadsAgree, SetsAgree};
ghost use Rattle.map_runs.specs.Runs.{RunsAgree};

/// A switch that is loaded by the map holds what the monitor's tables hold.
pub fn loads_agree()
    ensures { LoadsAgree }
{}

/// So it does where one variable is set.
pub fn sets_agree()
    ensures { SetsAgree }
{}

/// The map by numbers of the linked program of each switch is this map.
pub fn numbers_are_lookups()
    ensures { NumbersAreLookups }
{}

/// Each run by the map is the run by the monitor's tables.
pub fn runs_agree()
    ensures { RunsAgree }
{}
