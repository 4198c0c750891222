//! Laws of programs with two structs, each the contract of a function that does nothing.

ghost use Rattle.parted_programs.specs.Laws.{PartedCountsSame, PartedHasSameParts, PartedIsGiven, WithoutExitsIsFree};

/// With two structs a well-typed program with own names that can be spelled is one that is linked.
pub fn parted_is_given()
    ensures { PartedIsGiven }
{}

/// Its passages are the same.
pub fn parted_has_same_parts()
    ensures { PartedHasSameParts }
{}

/// Its bytes of headers, its most digests and its cells are the same.
pub fn parted_counts_same()
    ensures { PartedCountsSame }
{}

/// No program without exits has the new struct's name, where the given one has given names.
pub fn without_exits_is_free()
    ensures { WithoutExitsIsFree }
{}
