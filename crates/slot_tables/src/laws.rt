//! That tables choose by numbers what they choose by names. The law is the contract of a function that does nothing.

ghost use Rattle.slot_tables.specs.Choices.{TablesChoose};

/// Tables of a program choose by numbers what they choose by names.
pub fn tables_choose()
    ensures { TablesChoose }
{}
