//! The law of tables, the contract of a function that does nothing.

ghost use Rattle.rewriting_tables.specs.Tables.{TablesStay};

/// Tables of a well-typed program take and hold the same with other values.
pub fn tables_stay()
    ensures { TablesStay }
{}
