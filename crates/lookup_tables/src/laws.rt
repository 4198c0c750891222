//! Laws of the tables of lookups.

ghost use Rattle.lookup_tables.specs.Finding.{EntriesAreContents, TablesFindWhatIsLookedUp};

/// A lookup's table that holds what its variable has leaves what is looked up in the variable of what
/// is found, and writes nothing else.
pub fn tables_find_what_is_looked_up()
    ensures { TablesFindWhatIsLookedUp }
{}

/// What a lookup's table holds for contents of its variable is what is put into the variable's tables.
pub fn entries_are_contents()
    ensures { EntriesAreContents }
{}
