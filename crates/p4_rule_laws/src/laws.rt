//! Laws of what is tested of programs, each the contract of a function that does nothing.

ghost use Rattle.p4_rule_laws.specs.Roles.{PartsAreInRole};
ghost use Rattle.p4_rule_laws.specs.Laws.{WellTypedIsFine, PlacesDontCount, TestsRestOnNames, ScopesStayAlike, NewNamesAreNotSeen, FineTreesKeep, ScopesAreRooted, FineStaysFine, StatementsJoin, DeclarationsJoin, GuardsAreFine, FlagsAreFine, ReplacedStaysFine};

/// A program is well typed exactly where all that is tested of it is fine.
pub fn well_typed_is_fine()
    ensures { WellTypedIsFine }
{}

/// Places don't count in what is tested of programs.
pub fn places_dont_count()
    ensures { PlacesDontCount }
{}

/// What is tested of a tree rests on what its names stand for.
pub fn tests_rest_on_names()
    ensures { TestsRestOnNames }
{}

/// Scopes that agree on names do so behind the same declarations.
pub fn scopes_stay_alike()
    ensures { ScopesStayAlike }
{}

/// A declaration of a new name, or a new field, changes nothing for trees of other names.
pub fn new_names_are_not_seen()
    ensures { NewNamesAreNotSeen }
{}

/// What is in sight stays in sight behind fine declarations.
pub fn fine_trees_keep()
    ensures { FineTreesKeep }
{}

/// In the scopes of a program a name that stands for nothing has no path behind it.
pub fn scopes_are_rooted()
    ensures { ScopesAreRooted }
{}

/// What is fine stays fine further in, where the names that it declares are free.
pub fn fine_stays_fine()
    ensures { FineStaysFine }
{}

/// Statements behind others are fine where both are.
pub fn statements_join()
    ensures { StatementsJoin }
{}

/// Declarations behind others are fine where both are.
pub fn declarations_join()
    ensures { DeclarationsJoin }
{}

/// Statements stay fine behind the test of an `if`.
pub fn guards_are_fine()
    ensures { GuardsAreFine }
{}

/// Statements stay fine behind the test of a flag, which may be read and set.
pub fn flags_are_fine()
    ensures { FlagsAreFine }
{}

/// Statements stay fine with other expressions in the place of theirs.
pub fn replaced_stays_fine()
    ensures { ReplacedStaysFine }
{}

/// The parts of a well-typed program are those that `main` names, with the architecture's parameters.
pub fn parts_are_in_role()
    ensures { PartsAreInRole }
{}
