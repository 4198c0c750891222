//! Laws of expressions in the place of others, each the contract of a function that does nothing.

ghost use Rattle.rewriting_laws.specs.Laws.{StandingComposes, FormsKeepStanding, OwnWidthsAreKnown};

/// Each expression may stand for itself, and one may be put after another.
pub fn standing_composes()
    ensures { StandingComposes }
{}

/// An expression whose parts are replaced may stand for the one before.
pub fn forms_keep_standing()
    ensures { FormsKeepStanding }
{}

/// An expression that breaks no rule has a width of its own exactly where its form says so, and its
/// value then rests on no place.
pub fn own_widths_are_known()
    ensures { OwnWidthsAreKnown }
{}
