//! Laws of statements with other values, each the contract of a function that does nothing.

ghost use Rattle.rewriting_meaning.specs.Laws.{StatementsDoSame, CallsDoSame, SettingsDoSame, ActionsStay, KeysStay, ProgramsCallsDoSame};

/// Statements that break no rule do the same with other values.
pub fn statements_do_the_same()
    ensures { StatementsDoSame }
{}

/// A call of a function, of an action or on a register does the same with other values.
pub fn calls_do_the_same()
    ensures { CallsDoSame }
{}

/// The variables of a control that are set have the same first values.
pub fn settings_do_the_same()
    ensures { SettingsDoSame }
{}

/// An action keeps its name and its parameters, and does the same.
pub fn actions_stay()
    ensures { ActionsStay }
{}

/// Keys of a table are matched in the same ways, and have the same words.
pub fn keys_stay()
    ensures { KeysStay }
{}

/// Calls of two programs do the same, where the actions and the tables in sight do.
pub fn calls_of_programs_do_the_same()
    ensures { ProgramsCallsDoSame }
{}
