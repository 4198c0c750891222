//! What holds of statements, actions and controls without exits.

ghost use Rattle.exit_statements.specs.Actions.{CallsAgree};
ghost use Rattle.exit_statements.specs.Bounds.{BoundsAgree, HeightsBounded, SizesBounded};
ghost use Rattle.exit_statements.specs.Controls.{EntersAgree, LeavesAgree};
ghost use Rattle.exit_statements.specs.Laws.{ListsAgree, NoneIsLeft, StaySame};
ghost use Rattle.exit_statements.specs.Written.{DeclareSame, NamesAgree};
ghost use Rattle.exit_statements.specs.WrittenActions.{ActionsAgree};

/// Where two runs agree and no flag is set, they agree behind the given statements and those without
/// exits, and the flags say how the given ones ended.
pub fn lists_agree()
    ensures { ListsAgree }
{}

/// No `exit` and no `return` is left.
pub fn none_is_left()
    ensures { NoneIsLeft }
{}

/// Statements that cannot leave stay as they are.
pub fn stay_same()
    ensures { StaySame }
{}

/// Calls of actions and applications of tables do the same with actions that are without exits,
/// whatever the tables hold.
pub fn calls_agree()
    ensures { CallsAgree }
{}

/// The entry half gives the same with an ingress without exits.
pub fn enters_agree()
    ensures { EntersAgree }
{}

/// The exit half gives the same with an egress without exits, but for variables at its end.
pub fn leaves_agree()
    ensures { LeavesAgree }
{}

/// A control without exits gives at most as many digests as the given one.
pub fn bounds_agree()
    ensures { BoundsAgree }
{}

/// Statements without exits are at most five times as many.
pub fn sizes_bounded()
    ensures { SizesBounded }
{}

/// Statements without exits are at most three times as high, and one.
pub fn heights_bounded()
    ensures { HeightsBounded }
{}

/// Written statements without exits are, where names stand for what they name, those of this kind
/// without exits.
pub fn names_agree()
    ensures { NamesAgree }
{}

/// Statements without exits declare the variables of the given ones.
pub fn declare_same()
    ensures { DeclareSame }
{}

/// A written action without exits that uses no flag is, where names stand for what they name, that
/// action without exits.
pub fn actions_agree()
    ensures { ActionsAgree }
{}
