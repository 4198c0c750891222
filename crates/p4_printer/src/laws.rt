//! What holds of trees that can be spelled. The functions do nothing: each is there for its clauses.

ghost use Rattle.p4_printer.specs.Laws.{SpelledCanBe, CanBeSpelled, TextIsPrinted, SameHaveOneText};

/// The trees that can be spelled are those that are spelled but for places.
pub fn spelled()
    ensures only { SpelledCanBe }
    ensures all { CanBeSpelled }
{}

/// What the text of a tree says, and that it does not rest on places.
pub fn texts()
    ensures printed { TextIsPrinted }
    ensures same { SameHaveOneText }
{}
