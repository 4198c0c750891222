//! Laws of the trees of whole properties, by the rules of P4.

ghost use Rattle.monitor_rules.specs.Counted.{TreesAreCounted};
ghost use Rattle.monitor_rules.specs.Declared.{TreesDeclareTheirOwn};
ghost use Rattle.monitor_rules.specs.Rules.{TreesPass};
ghost use Rattle.monitor_rules.specs.Told.{TreesTell, TreesTellFew};

/// Each name that the trees of a property declare is the monitor's.
pub fn trees_declare_their_own()
    ensures { TreesDeclareTheirOwn }
{}

/// The trees of a property break no rule of P4 in a linked program that has what header variables read.
pub fn trees_pass()
    ensures { TreesPass }
{}

/// How many digests they tell.
pub fn trees_tell()
    ensures { TreesTell }
{}

/// A property tells no more digests than it weighs.
pub fn trees_tell_few()
    ensures { TreesTellFew }
{}

/// The bytes of their telemetry and the cells of their registers are what the property's sums say.
pub fn trees_are_counted()
    ensures { TreesAreCounted }
{}
