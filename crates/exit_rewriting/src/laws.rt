//! What holds of programs without `exit` and `return` that can be spelled. The functions do
//! nothing: each is there for its clause.

ghost use Rattle.exit_rewriting.specs.Laws.{PlainIfSpelled, StaysSpelled};

/// A program that some lexemes spell, but for places, is so without exits too.
pub fn stays_spelled()
    ensures { StaysSpelled }
{}

/// A program that some lexemes spell has no name with a point.
pub fn plain_if_spelled()
    ensures { PlainIfSpelled }
{}
