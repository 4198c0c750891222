//! What holds of the rules of P4 where exits are taken out of a program.

ghost use Rattle.exit_rules.specs.Laws.{AloneStays, CountsStay, StaysWellTyped};

/// A well-typed program stays well typed without exits.
pub fn stays_well_typed()
    ensures { StaysWellTyped }
{}

/// What is counted of a well-typed program is the same without exits.
pub fn counts_stay()
    ensures { CountsStay }
{}

/// A control of a part that has its one call alone is left as it is.
pub fn alone_stays()
    ensures { AloneStays }
{}
