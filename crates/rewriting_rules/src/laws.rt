//! Laws of programs with other values, each the contract of a function that does nothing.

ghost use Rattle.rewriting_rules.specs.Laws.{ScopesAreKnown, PartsAreReplaced, StaysWellTyped, CountsStay, StaysSpelled};

/// What is known before the first declaration of a program stays known behind each that breaks no rule.
pub fn scopes_are_known()
    ensures { ScopesAreKnown }
{}

/// Statements with other values are replaced as the laws of the rules ask, and what controls declare
/// stays fine and in sight.
pub fn parts_are_replaced()
    ensures { PartsAreReplaced }
{}

/// A well-typed program stays well typed with other values.
pub fn stays_well_typed()
    ensures { StaysWellTyped }
{}

/// What is counted of a program stays.
pub fn counts_stay()
    ensures { CountsStay }
{}

/// A program that can be spelled can be spelled with other values.
pub fn stays_spelled()
    ensures { StaysSpelled }
{}
