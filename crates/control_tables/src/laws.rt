//! Laws of tables, each the contract of a function that does nothing.

ghost use Rattle.control_tables.specs.Laws.{ChoiceIsLookup};

/// What a table chooses on a key is the lookup of the variable's contents.
pub fn choice_is_lookup()
    ensures { ChoiceIsLookup }
{}
