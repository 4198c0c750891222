//! Laws of the meaning, each on a function that does nothing.

ghost use Rattle.std.specs.Prelude.{List, ℕ};
ghost use Rattle.bit_values.specs.Bits.{IsWord};
ghost use Rattle.indus_tree.specs.Tree.{Decl, Expr, Property, Stmts};
ghost use Rattle.network_run.specs.PathMeaning.{Reads, Doing, nothing_yet, entry_part, exit_part};
ghost use Rattle.indus_tree.specs.State.{Contents, Held, Hop};
ghost use Rattle.indus_tree.specs.Start.{sensors_start, tele_start};
ghost use Rattle.indus_tree.specs.Meaning.{block_run};
ghost use Rattle.indus_tree.specs.Law.{law_of};
ghost use Rattle.indus_tree.specs.Reads.{Items, Seen};
ghost use Rattle.indus_tree.specs.Shapes.{AreShaped};
ghost use Rattle.indus_tree.specs.Value.{value_of};
ghost use Rattle.indus_tree.specs.Words.{SeesWords};

/// The value of an expression that sees words in items and declared variables is a word: of 1 to 128
/// bits, and in range. This also holds of an expression that breaks a rule of types.
pub fn values_are_words()
    ensures { (s : Seen) (e : Expr) (w : ℕ) → SeesWords s → IsWord (value_of s e w) }
{}

/// What variables hold keeps to their declarations, whatever a block does, also one in a loop and one
/// that breaks a rule of types: words of the declared width, one in a scalar, and no more than a list
/// has room for.
pub fn variables_keep_their_shapes()
    ensures start { (ds : List Decl) → AreShaped ds (nothing_yet (tele_start ds) (sensors_start ds)) }
    ensures blocks { (h : Hop) (items : Items) (ss : Stmts) (d : Doing Held Held) →
        AreShaped h.decls d → AreShaped h.decls (block_run h items ss d) }
    ensures entry { (p : Property) (r : Reads Contents) (tele sensors : Held) →
        AreShaped p.decls (nothing_yet tele sensors) →
        AreShaped p.decls (entry_part (law_of p) r tele sensors) }
    ensures exit { (p : Property) (r : Reads Contents) (tele sensors : Held) →
        AreShaped p.decls (nothing_yet tele sensors) →
        AreShaped p.decls (exit_part (law_of p) r tele sensors) }
{}
