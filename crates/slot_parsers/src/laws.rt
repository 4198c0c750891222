//! When a parser over slots does what a program's parser means. Each law is the contract of a function
//! that does nothing.

ghost use Rattle.slot_parsers.specs.Parses.{NumberedStatesParse};
ghost use Rattle.slot_parsers.specs.Extracts.{AssignmentsDo, ExtractsDo, FixedPathsStay};
ghost use Rattle.slot_parsers.specs.Selects.{KeysFit, SelectsLead};

/// States by numbers do what states by names do, each passed once.
pub fn numbered_states_parse()
    ensures { NumberedStatesParse }
{}

/// The step of a call does what the call means in a state.
pub fn extracts_do()
    ensures { ExtractsDo }
{}

/// A write to a path's slot does what an assignment means.
pub fn assignments_do()
    ensures { AssignmentsDo }
{}

/// What no statement may write stays.
pub fn fixed_paths_stay()
    ensures { FixedPathsStay }
{}

/// A `select` over slots leads where the tree's leads.
pub fn selects_lead()
    ensures { SelectsLead }
{}

/// Key sets over slots fit where the tree's fit.
pub fn keys_fit()
    ensures { KeysFit }
{}
