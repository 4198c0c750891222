//! What holds of expressions. The functions do nothing: each is there for its clauses.

ghost use Rattle.p4_expressions.specs.Laws.{OneExpression, ReadIsSpelled, SpelledIsRead};

/// Lexemes spell one expression at most.
pub fn one_expression()
    ensures { OneExpression }
{}

/// What is spelled is read, and what is read is spelled.
pub fn read_is_spelled()
    ensures complete { SpelledIsRead }
    ensures sound { ReadIsSpelled }
{}
