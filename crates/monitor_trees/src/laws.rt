//! Laws of the trees of whole properties.

ghost use Rattle.monitor_trees.specs.Code.{CodeIsWhatRuns};
ghost use Rattle.monitor_trees.specs.Spelled.{TreesCanBeSpelled};
ghost use Rattle.monitor_trees.specs.Trees.{TreesAreTheMonitor};

/// Code as it is written is, under a scope in which a control of a linked program stands, the code that
/// runs.
pub fn code_is_what_runs()
    ensures { CodeIsWhatRuns }
{}

/// The trees of a property are, under the scopes of a linked program's controls, the parts of its monitor.
pub fn trees_are_the_monitor()
    ensures { TreesAreTheMonitor }
{}

/// The trees of a property can be spelled where the names in it can.
pub fn trees_can_be_spelled()
    ensures { TreesCanBeSpelled }
{}
