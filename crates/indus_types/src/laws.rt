//! What well-typedness says of a tree.

ghost use Rattle.indus_types.specs.Facts.{EachFine, FineAgrees, ReportsAreShort};
ghost use Rattle.indus_types.specs.Faults.{AnsweredIsBroken};
ghost use Rattle.indus_types.specs.Fits.{KnowsWidths};
ghost use Rattle.indus_types.specs.StaticWidths.{SightsAreSound, SightsAreSeen, ValuesHaveStaticWidths, PartsAreServed};
ghost use Rattle.indus_types.specs.Views.{HopsShowDeclared};

/// Of a well-typed property each site is fine by itself.
pub fn each_is_fine()
    ensures { EachFine }
{}

/// A rule for which a property is refused is broken at the place that is named.
pub fn an_answered_rule_is_broken()
    ensures { AnsweredIsBroken }
{}

/// A fine expression cites known names, and its kind and width are those that its place wants.
pub fn fine_expressions_agree()
    ensures { FineAgrees }
{}

/// The width that the meaning of a fine expression finds is the one that the rules gave.
pub fn meaning_knows_widths()
    ensures { KnowsWidths }
{}

/// The reports of a well-typed property have at most eight values.
pub fn reports_are_short()
    ensures { ReportsAreShort }
{}

/// What is in sight in a well-typed property has widths of 1 to 128 bits.
pub fn sights_are_sound()
    ensures { SightsAreSound }
{}

/// Where a hop and the variables keep to the declarations, statements see words of the declared widths,
/// in each turn of a loop too.
pub fn sights_are_seen()
    ensures { SightsAreSeen }
{}

/// The value of each expression has the expression's static width: its own, or that of its place.
pub fn values_have_static_widths()
    ensures { ValuesHaveStaticWidths }
{}

/// The widths that the meaning hands to parts are those that the rules want there.
pub fn parts_are_served()
    ensures { PartsAreServed }
{}

/// Where a view has a word of the declared width for each header variable, and a switch contents of
/// the declared width for each control variable, a hop shows what is declared.
pub fn hops_show_declared()
    ensures { HopsShowDeclared }
{}
