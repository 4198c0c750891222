//! Laws of the meaning, each the contract of a function that does nothing. `specs/Laws` says them.

ghost use Rattle.std.specs.Prelude.{◌≡◌, ℕ, suc, ◌<◌, List, Bool, length};
ghost use Rattle.bit_values.specs.Bits.{Word};
ghost use Rattle.p4_tree.specs.Tree.{ParserState};
ghost use Rattle.p4_meaning.specs.Parsing.{Header, Reading, turns_of};
ghost use Rattle.p4_meaning.specs.Choice.{Entry, IsChosen, IsChoice, rank_of, choice_of};
ghost use Rattle.p4_meaning.specs.Laws.{ConstantsAreWords, FewDigests, ReturnEndsTheAction, ValueIsSeen, WidthIsSeen, WidthsAreKept};

/// A parser's turns are never used up: where there are more turns than states, one more changes
/// nothing. Each turn takes one state away, so no premise on the states is needed.
pub fn turns_are_enough()
    ensures { (hs : List Header) (n : ℕ) (sts : List ParserState) (x : List ℕ) (s : Reading) →
        length sts < n → turns_of (suc n) hs sts x s ≡ turns_of n hs sts x s }
{}

/// What one walk over a table's entries finds is the table's choice: an entry that fits and than
/// which none that fits has a longer prefix or, with a ternary key, a greater priority; and none
/// where no entry fits. Two entries that are chosen have one such rank, so the order in which
/// entries were loaded decides only between entries of one rank.
pub fn a_walk_finds_the_choice()
    ensures choice { (t : Bool) (entries : List Entry) (keys : List Word) →
        IsChoice t entries keys (choice_of t entries keys) }
    ensures rank { (t : Bool) (entries : List Entry) (keys : List Word) (e f : Entry) →
        IsChosen t entries keys e → IsChosen t entries keys f → rank_of t e ≡ rank_of t f }
{}

/// An expression with what its names stand for in their place has the value that it has in what is
/// seen at its place, and the same width of its own. Constants in sight have sound words, at every
/// place of a program.
pub fn names_stand_for_what_is_seen()
    ensures value { ValueIsSeen }
    ensures width { WidthIsSeen }
    ensures constants { ConstantsAreWords }
{}

/// Whatever statements do, actions and tables included, headers, metadata and standard metadata keep
/// their widths, and their words stay in range.
pub fn widths_are_kept()
    ensures { WidthsAreKept }
{}

/// `return` ends the action that it stands in, and never the control that called it.
pub fn return_ends_the_action()
    ensures { ReturnEndsTheAction }
{}

/// A passage of a switch, whose tables run actions of their lists, gives at most as many digests as
/// the program's bound says.
pub fn a_passage_gives_few_digests()
    ensures { FewDigests }
{}
