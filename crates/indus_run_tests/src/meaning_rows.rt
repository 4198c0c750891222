// Worked rows: what the definitions give on small properties. Each is proved by computation.
ghost use Rattle.std.specs.Prelude.{codes, ◌≡◌, List, [], ◌∷◌, ◌++◌, true, false, Some, None};
ghost use Rattle.bit_values.specs.Bits.{word};
ghost use Rattle.indus_tree.specs.Tree.{binary, num};
ghost use Rattle.indus_tree.specs.Places.{IsSameProperty};
ghost use Rattle.indus_tree.specs.Height.{height};
ghost use Rattle.indus_tree.specs.Start.{sensors_start};
ghost use Rattle.indus_tree.specs.Operators.{operate};
ghost use Rattle.indus_tree.specs.Value.{inverted};
ghost use Rattle.indus_tree.specs.Law.{law_of};
ghost use Rattle.indus_tree.specs.declared.tree.Op.TheVariants as op;
ghost use Rattle.network_run.specs.PathMeaning.{exit_part, reads_at};
ghost use Rattle.network_run.specs.Hop.{hop_run};
ghost use Rattle.indus_run_tests.specs.Properties.{begun, no_contents, passes, passes_with, over_one, over_three, reporting, three_pushes, wrapping, nested_loops, two_parts, two_parts_set, out_of_range, two_views, two_flags, in_order, in_order_placed};

/// A list of two items is pushed onto at three switches: the third push changes nothing.
fn third_push_changes_nothing()
    ensures items { (over_three three_pushes).tele (codes "l") ≡ word 9 0 ∷ word 9 1 ∷ [] }
    ensures reports { (over_three three_pushes).reports
        ≡ reporting 0 (word 8 2 ∷ word 1 0 ∷ word 1 1 ∷ []) ∷ [] }
{}

/// A sensor that starts at 250 and takes 3 more from each packet wraps at the second.
fn sensor_wraps()
    ensures start { sensors_start wrapping.decls (codes "s") ≡ word 8 250 ∷ [] }
    ensures once { (over_one wrapping).sensors (codes "s") ≡ word 8 253 ∷ [] }
    ensures twice { (passes wrapping 0 true true (over_one wrapping)).sensors (codes "s")
        ≡ word 8 0 ∷ [] }
{}

/// A loop over a list of three and one of two takes two turns, and a loop inside it three in each.
fn loops_take_the_shortest_list()
    ensures products { (over_one nested_loops).tele (codes "m") ≡ word 8 50 ∷ [] }
    ensures sums { (over_one nested_loops).tele (codes "n") ≡ word 8 12 ∷ [] }
{}

/// A dict and a set whose keys have two parts; a missing key gives 0.
fn keys_of_two_parts()
    ensures { (exit_part (law_of two_parts) (reads_at 0 true true [] two_parts_set)
        (begun two_parts).tele (begun two_parts).sensors).reports
        ≡ reporting 0
        (word 16 500 ∷ word 16 7 ∷ word 16 0 ∷ word 1 1 ∷ word 1 0 ∷ []) ∷ [] }
{}

/// An array of three cells: a write to the fourth changes nothing, and a read of it gives 0.
fn cells_out_of_range()
    ensures cells { (over_one out_of_range).sensors (codes "a")
        ≡ word 8 9 ∷ word 8 9 ∷ word 8 5 ∷ [] }
    ensures outside { (over_one out_of_range).tele (codes "n") ≡ word 8 0 ∷ [] }
    ensures inside { (over_one out_of_range).tele (codes "m") ≡ word 8 9 ∷ [] }
{}

/// Init reads the entry view, and telemetry the exit view, which a dropped packet does not have.
fn views_of_the_two_parts()
    ensures entry { (passes_with two_views 0 true true (word 9 0 ∷ []) (word 9 2 ∷ [])
        (begun two_views)).tele (codes "n") ≡ word 9 0 ∷ [] }
    ensures exit { (passes_with two_views 0 true true (word 9 0 ∷ []) (word 9 2 ∷ [])
        (begun two_views)).tele (codes "m") ≡ word 9 2 ∷ [] }
    ensures dropped { let d = begun two_views in
        (hop_run (law_of two_views) (reads_at 0 true false (word 9 5 ∷ []) no_contents) None
        d.tele d.sensors).tele (codes "m") ≡ word 9 0 ∷ [] }
{}

/// Of three hops the first is the first hop, and the third the last.
fn first_and_last_hops()
    ensures first { (over_three two_flags).tele (codes "f")
        ≡ word 1 1 ∷ word 1 0 ∷ word 1 0 ∷ [] }
    ensures last { (over_three two_flags).tele (codes "l")
        ≡ word 1 0 ∷ word 1 0 ∷ word 1 1 ∷ [] }
{}

/// Init, telemetry and checker run in this order, and a rejection does not end the block. Reports
/// have up to eight values, and stand in order with their numbers.
fn parts_and_reports_in_order()
    ensures rejected { (over_one in_order).rejected ≡ true }
    ensures reports { let two = word 8 2 in (over_one in_order).reports
        ≡ reporting 0 (two ∷ two ∷ two ∷ two ∷ two ∷ two ∷ two ∷ word 1 1 ∷ [])
        ∷ reporting 1 [] ∷ [] }
    // Three hops double the number three times.
    ensures later { (over_three in_order).rejected ≡ false }
    // The flag of an earlier checker is not kept.
    ensures anew { (passes in_order 0 false true (over_one in_order)).rejected ≡ false }
{}

/// The height counts the property, a statement, the test and its operands; places do not count.
fn heights_and_places()
    ensures high { height in_order ≡ 4 }
    ensures same { IsSameProperty in_order_placed in_order }
    ensures more { height two_parts ≡ 4 }
{}

/// Every operator on numbers of one bit.
fn operators_on_one_bit()
    ensures mul { operate op.Mul (word 1 1) (word 1 1) ≡ word 1 1 }
    ensures add { operate op.Add (word 1 1) (word 1 1) ≡ word 1 0 }
    ensures sub { operate op.Sub (word 1 0) (word 1 1) ≡ word 1 1 }
    ensures shl { operate op.Shl (word 1 1) (word 1 1) ≡ word 1 0 }
    ensures shr { operate op.Shr (word 1 1) (word 1 1) ≡ word 1 0 }
    ensures bit_and { operate op.BitAnd (word 1 1) (word 1 0) ≡ word 1 0 }
    ensures bit_xor { operate op.BitXor (word 1 1) (word 1 1) ≡ word 1 0 }
    ensures bit_or { operate op.BitOr (word 1 1) (word 1 0) ≡ word 1 1 }
    ensures less { operate op.Less (word 1 0) (word 1 1) ≡ word 1 1 }
    ensures less_eq { operate op.LessEq (word 1 1) (word 1 0) ≡ word 1 0 }
    ensures more { operate op.More (word 1 0) (word 1 1) ≡ word 1 0 }
    ensures more_eq { operate op.MoreEq (word 1 1) (word 1 1) ≡ word 1 1 }
    ensures equal { operate op.Equal (word 1 0) (word 1 0) ≡ word 1 1 }
    ensures differ { operate op.Differ (word 1 0) (word 1 0) ≡ word 1 0 }
    ensures both { operate op.Both (word 1 1) (word 1 0) ≡ word 1 0 }
    ensures either { operate op.Either (word 1 0) (word 1 1) ≡ word 1 1 }
    ensures invert { inverted (word 1 0) ≡ word 1 1 }
{}

/// Every operator on numbers of eight bits: 200 is 11001000, and 100 is 01100100.
fn operators_on_eight_bits()
    ensures mul { operate op.Mul (word 8 200) (word 8 100) ≡ word 8 32 }
    ensures add { operate op.Add (word 8 200) (word 8 100) ≡ word 8 44 }
    ensures sub { operate op.Sub (word 8 100) (word 8 200) ≡ word 8 156 }
    ensures shl { operate op.Shl (word 8 200) (word 8 3) ≡ word 8 64 }
    ensures shl_all { operate op.Shl (word 8 200) (word 8 8) ≡ word 8 0 }
    ensures shl_more { operate op.Shl (word 8 200) (word 128 300) ≡ word 8 0 }
    ensures shr { operate op.Shr (word 8 200) (word 8 3) ≡ word 8 25 }
    ensures shr_all { operate op.Shr (word 8 200) (word 8 8) ≡ word 8 0 }
    ensures shr_more { operate op.Shr (word 8 200) (word 128 300) ≡ word 8 0 }
    ensures bit_and { operate op.BitAnd (word 8 200) (word 8 100) ≡ word 8 64 }
    ensures bit_xor { operate op.BitXor (word 8 200) (word 8 100) ≡ word 8 172 }
    ensures bit_or { operate op.BitOr (word 8 200) (word 8 100) ≡ word 8 236 }
    ensures less { operate op.Less (word 8 200) (word 8 100) ≡ word 1 0 }
    ensures less_eq { operate op.LessEq (word 8 100) (word 8 200) ≡ word 1 1 }
    ensures more { operate op.More (word 8 200) (word 8 100) ≡ word 1 1 }
    ensures more_eq { operate op.MoreEq (word 8 100) (word 8 200) ≡ word 1 0 }
    ensures equal { operate op.Equal (word 8 200) (word 8 100) ≡ word 1 0 }
    ensures differ { operate op.Differ (word 8 200) (word 8 100) ≡ word 1 1 }
    ensures invert { inverted (word 8 200) ≡ word 8 55 }
{}

/// Every operator on numbers of 128 bits, of which the greatest is 2 ^ 128 - 1.
fn operators_on_128_bits()
    ensures mul { let greatest = word 128 340282366920938463463374607431768211455 in
        operate op.Mul greatest greatest ≡ word 128 1 }
    ensures add { let greatest = word 128 340282366920938463463374607431768211455 in
        operate op.Add greatest (word 128 2) ≡ word 128 1 }
    ensures sub { let greatest = word 128 340282366920938463463374607431768211455 in
        operate op.Sub (word 128 0) (word 128 1) ≡ greatest }
    ensures shl { operate op.Shl (word 128 3) (word 128 127)
        ≡ word 128 170141183460469231731687303715884105728 }
    ensures shl_all { operate op.Shl (word 128 3) (word 128 128) ≡ word 128 0 }
    ensures shr { let greatest = word 128 340282366920938463463374607431768211455 in
        operate op.Shr greatest (word 128 127) ≡ word 128 1 }
    ensures shr_all { let greatest = word 128 340282366920938463463374607431768211455 in
        operate op.Shr greatest (word 128 128) ≡ word 128 0 }
    ensures bit_and { let greatest = word 128 340282366920938463463374607431768211455 in
        operate op.BitAnd greatest (word 128 5) ≡ word 128 5 }
    ensures bit_xor { let greatest = word 128 340282366920938463463374607431768211455 in
        operate op.BitXor greatest greatest ≡ word 128 0 }
    ensures bit_or { let greatest = word 128 340282366920938463463374607431768211455 in
        operate op.BitOr greatest (word 128 5) ≡ greatest }
    ensures less { let greatest = word 128 340282366920938463463374607431768211455 in
        operate op.Less (word 128 5) greatest ≡ word 1 1 }
    ensures less_eq { let greatest = word 128 340282366920938463463374607431768211455 in
        operate op.LessEq greatest greatest ≡ word 1 1 }
    ensures more { let greatest = word 128 340282366920938463463374607431768211455 in
        operate op.More greatest (word 128 5) ≡ word 1 1 }
    ensures more_eq { let greatest = word 128 340282366920938463463374607431768211455 in
        operate op.MoreEq (word 128 5) greatest ≡ word 1 0 }
    ensures equal { let greatest = word 128 340282366920938463463374607431768211455 in
        operate op.Equal greatest (word 128 5) ≡ word 1 0 }
    ensures differ { let greatest = word 128 340282366920938463463374607431768211455 in
        operate op.Differ greatest (word 128 5) ≡ word 1 1 }
    ensures invert { let greatest = word 128 340282366920938463463374607431768211455 in
        inverted (word 128 0) ≡ greatest }
{}
