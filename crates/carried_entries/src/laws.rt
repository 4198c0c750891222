ghost use Rattle.carried_entries.specs.Forms.{MonitorTablesHaveForm};
ghost use Rattle.carried_entries.specs.Places.{EntriesHavePlaces};
ghost use Rattle.carried_entries.specs.Rows.{MonitorTablesAreApart};

use p4_parser_states::laws::reaches_is_exact;

/// Each table of the given program stands in the linked program of each switch, so that what it holds
/// can be carried over.
pub fn entries_have_places()
    ensures { EntriesHavePlaces }
{
    reaches_is_exact();
}

/// The tables of the monitor's map have the forms that are given for their control variables.
pub fn monitor_tables_have_form()
    ensures { MonitorTablesHaveForm }
{
    reaches_is_exact();
}

/// What is carried over stays out of them.
pub fn monitor_tables_are_apart()
    ensures { MonitorTablesAreApart }
{
    reaches_is_exact();
}
