//! What well-typedness says of a program, each law the contract of a function that does nothing.

ghost use Rattle.p4_typing_laws.specs.Along.{StoresFit};
ghost use Rattle.p4_typing_laws.specs.Counted.{DigestsAreCounted};
ghost use Rattle.p4_typing_laws.specs.Names.{NamesResolve};
ghost use Rattle.p4_typing_laws.specs.Runs.{ControlsRun};
ghost use Rattle.p4_typing_laws.specs.Soundness.{SightsAreSound};
ghost use Rattle.p4_typing_laws.specs.States.{NoStateReachesItself};
ghost use Rattle.p4_typing_laws.specs.Stores.{RunsHaveStaticWidths};
ghost use Rattle.p4_typing_laws.specs.Tied.{ScopesAreTied};
ghost use Rattle.p4_typing_laws.specs.Widths.{EachPartIsServed, ValuesHaveStaticWidths};

use p4_meaning::laws::{a_passage_gives_few_digests, names_stand_for_what_is_seen};
use p4_parser_states::laws::reaches_is_exact;

/// Each name of a well-typed program stands for something, of a kind that fits its use.
pub fn names_resolve()
    ensures { NamesResolve }
{}

/// What is in sight in a well-typed program has widths of 1 to 128 bits, and what is wanted has one of
/// these or none.
pub fn sights_are_sound()
    ensures { SightsAreSound }
{}

/// The value of each expression is a word of the expression's static width, in range: its own width,
/// or that of its place.
pub fn values_have_static_widths()
    ensures { ValuesHaveStaticWidths }
{}

/// The widths that the meaning hands to parts are those that the rules want there.
pub fn parts_are_served()
    ensures { EachPartIsServed }
{}

/// No state of a well-typed program's parsers reaches itself.
pub fn no_state_reaches_itself()
    ensures { NoStateReachesItself }
{
    reaches_is_exact();
}

/// What the rules count of the digests of a well-typed program is the bound that the meaning has, and
/// at most the limit; so a passage gives at most that many.
pub fn digests_are_counted()
    ensures { DigestsAreCounted }
{
    a_passage_gives_few_digests();
}

/// What stands at a name by the rules is what the name has in the meaning, at each place of a
/// well-typed program.
pub fn scopes_are_tied()
    ensures { ScopesAreTied }
{}

/// Where a store of a run fits both scopes, each expression of the running program has a word of its
/// static width, in range.
pub fn runs_have_static_widths()
    ensures { RunsHaveStaticWidths }
{
    names_stand_for_what_is_seen();
}

/// Along the run of a block that breaks no rule the store fits both scopes at each statement to which
/// the run comes.
pub fn stores_fit()
    ensures { StoresFit }
{}

/// In ingress and egress of a well-typed program, and in their actions, the store fits both scopes at
/// each statement to which a run comes, whatever the tables hold.
pub fn controls_run()
    ensures { ControlsRun }
{}
