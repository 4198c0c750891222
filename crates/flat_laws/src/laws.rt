//! Laws of flat code, each on a function that does nothing.

ghost use Rattle.flat_laws.specs.Form.{FlatCodeIsFlat};
ghost use Rattle.flat_laws.specs.Meaning.{FlatCodeDoesTheSame, StartsAreNumbered};
ghost use Rattle.flat_laws.specs.Sizes.{HeightsAreBounded, ReportsAreBounded, SizesAreBounded};
ghost use Rattle.flat_laws.specs.Typing.{FlatCodeIsWellTyped};

/// At each hop the flat code of a block of a well-typed property does to the numbered scalars what the
/// block does to the packet's variables, and the same to all else.
pub fn flat_code_does_the_same()
    ensures { FlatCodeDoesTheSame }
{}

/// What numbered scalars hold at a packet's start is what its variables do.
pub fn starts_are_numbered()
    ensures { StartsAreNumbered }
{}

/// No loop and no push is left in flat code, and no count and no member of a list.
pub fn flat_code_is_flat()
    ensures { FlatCodeIsFlat }
{}

/// The nodes of flat code are at most a constant times the weight; the constant grows with the number
/// of lists that one loop walks.
pub fn sizes_are_bounded()
    ensures { SizesAreBounded }
{}

/// Flat code has no more reports than the weight.
pub fn reports_are_bounded()
    ensures { ReportsAreBounded }
{}

/// Flat code is little higher than the code from which it comes.
pub fn heights_are_bounded()
    ensures { HeightsAreBounded }
{}

/// The property of flat code breaks no rule of types.
pub fn flat_code_is_well_typed()
    ensures { FlatCodeIsWellTyped }
{}
