//! What holds of spelling. The functions do nothing: each is there for its clauses.

ghost use Rattle.p4_spelling.specs.Rising.{PlacesRise};

/// The places of a tree rise, and lie among the lexemes that spell it.
pub fn places()
    ensures { PlacesRise }
{}
