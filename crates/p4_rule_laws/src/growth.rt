//! Laws of programs that are made of others, each the contract of a function that does nothing.

ghost use Rattle.p4_rule_laws.specs.LimitLaws.{CountsAdd, CountsRestOnNames, StructsAreWider};
ghost use Rattle.p4_rule_laws.specs.GrowthLaws.{BodiesGrow, LocalsInPlace, StatesAreEntered, StartIsOwn, DeclarationsGrow, GrownIsFine, GrownIsWellTyped};

/// Statements around those of a control, and a header that is emitted first, leave it fine.
pub fn bodies_grow()
    ensures { BodiesGrow }
{}

/// Actions with other bodies, variables with other first values and tables with other keys leave a
/// control fine.
pub fn locals_in_place()
    ensures { LocalsInPlace }
{}

/// States in front of a parser's own, and other expressions in its states, leave it fine, with no new
/// cycle.
pub fn states_are_entered()
    ensures { StatesAreEntered }
{
    p4_parser_states::laws::reaches_is_exact();
}

/// The first state of a fine parser is one of its own.
pub fn start_is_own()
    ensures { StartIsOwn }
{}

/// Declarations stay fine with new ones among them.
pub fn declarations_grow()
    ensures { DeclarationsGrow }
{}

/// The declarations of a program that grows are fine, and its own names stand for what they stood for.
pub fn grown_is_fine()
    ensures { GrownIsFine }
{}

/// A program that grows stays well typed.
pub fn grown_is_well_typed()
    ensures { GrownIsWellTyped }
{}

/// What is counted of lists behind each other adds up, rests on what names stand for, and a struct
/// that grows has the new fields around its own.
pub fn counts_add_up()
    ensures add { CountsAdd }
    ensures names { CountsRestOnNames }
    ensures fields { StructsAreWider }
{}
