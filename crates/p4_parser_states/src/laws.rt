//! Laws of what states reach, each the contract of a function that does nothing. `specs/Laws` says
//! them.

ghost use Rattle.p4_parser_states.specs.Laws.{ReachesIsExact, FallingRanksLeaveNoCycle};

/// The test is true exactly where one step or more lead from one name to the other.
pub fn reaches_is_exact()
    ensures { ReachesIsExact }
{}

/// Where some rank falls along each step to a state, no state reaches itself.
pub fn falling_ranks_leave_no_cycle()
    ensures { FallingRanksLeaveNoCycle }
{}
