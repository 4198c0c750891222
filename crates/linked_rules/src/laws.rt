//! What holds of linked programs, by the rules of P4.

ghost use Rattle.linked_rules.specs.BareRules.{RulesCanBeKept};
ghost use Rattle.linked_rules.specs.Fine.{LinkedCounts, LinkedIsWellTyped, LinkedTells, LinkedWithin, SwitchesCountAlike};
ghost use Rattle.linked_rules.specs.Form.{LinkedNamesStand, TablesStand};
ghost use Rattle.linked_rules.specs.Held.{LinkedHolds};

use monitor_laws::LoweredMonitor;
use p4_parser_states::laws::reaches_is_exact;

/// The linked program of a well-typed program is well typed within the limits.
pub fn linked_is_well_typed()
    ensures { LinkedIsWellTyped }
{
    reaches_is_exact();
}

/// Its headers' bytes and its registers' cells are the program's and the monitor's.
pub fn linked_counts()
    ensures { LinkedCounts }
{
    reaches_is_exact();
}

/// The digests that it tells are the program's and the lowering's.
pub fn linked_tells()
    ensures { LinkedTells }
{
    reaches_is_exact();
}

/// As much is counted of it at all switches, whatever ports have links.
pub fn switches_count_alike()
    ensures { SwitchesCountAlike }
{
    reaches_is_exact();
}

/// It is well typed where the program's numbers and the lowering's are within the limits.
pub fn linked_within()
    ensures { LinkedWithin }
{
    reaches_is_exact();
}

/// It declares the names that the given program declares, and other names of the monitor's only.
pub fn linked_names_stand()
    ensures { LinkedNamesStand }
{}

/// The program's actions and tables stand in it, and its registers behind the monitor's; the other actions
/// and tables are the monitor's.
pub fn tables_stand<L: LoweredMonitor>()
    ensures { TablesStand L.Tele L.Sensors L.Contents }
{}

/// The keys of own tables and the parameters of own actions hold what they held.
pub fn linked_holds()
    ensures { LinkedHolds }
{
    reaches_is_exact();
}

/// The promises can be kept.
pub fn rules_can_be_kept()
    ensures { RulesCanBeKept }
{}
