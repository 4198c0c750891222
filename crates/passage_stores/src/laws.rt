//! What is sure of the stores of a passage, each law the contract of a function that does nothing.

ghost use Rattle.passage_stores.specs.PassageStores.{PassageStoresFit};
ghost use Rattle.passage_stores.specs.SeenPassages.{EachPartBegins, EachPassageSees};
ghost use Rattle.passage_stores.specs.SeenStores.{SeenHasWidth};

/// All stores along both halves of a passage of a well-typed program have words of the declared widths,
/// in range, whatever tables and registers hold and whatever comes; and so has what is queued.
pub fn passage_stores_fit()
    ensures { PassageStoresFit }
{}

/// Where a store fits the program, it fits what is in sight at the beginning of the parser and of each
/// control that runs.
pub fn each_part_begins()
    ensures { EachPartBegins }
{}

/// Where what is in sight is seen, each expression has a word of its static width, in range.
pub fn seen_has_width()
    ensures { SeenHasWidth }
{}

/// Along a whole passage each statement runs in a store in which what is in sight are words of the
/// declared widths.
pub fn each_passage_sees()
    ensures { EachPassageSees }
{}
