// Worked rows: what properties say of logs. Each is proved by computation.
ghost use Rattle.std.specs.Prelude.{codes, ◌≡◌, List, [], ◌∷◌, ◌++◌, true, false, Some, None};
ghost use Rattle.bit_values.specs.Bits.{word};
ghost use Rattle.indus_tree.specs.Law.{hop_for, law_of};
ghost use Rattle.indus_tree.specs.Meaning.{run_of};
ghost use Rattle.network_run.specs.PathMeaning.{entry_part, exit_part};
ghost use Rattle.network_run.specs.Hop.{hop_run};
ghost use Rattle.indus_run_tests.specs.Properties.{begun, no_contents, passes, three_pushes, wrapping, two_parts, two_parts_set, two_views, two_flags, in_order};
ghost use Rattle.indus_run_tests.specs.Logs.{asks_early, reads_where, over_one, over_three, passage, passage_with, path_of, rejects_early, reporting, reports_twice, telling};

/// A list of two items is pushed onto at three switches: the third push changes nothing.
fn third_push_changes_nothing()
    ensures items { (path_of three_pushes (over_three 0)).tele 0 (codes "l")
        ≡ word 9 0 ∷ word 9 1 ∷ [] }
    ensures reports { (path_of three_pushes (over_three 0)).reports
        ≡ reporting 0 2 0 (word 8 2 ∷ word 1 0 ∷ word 1 1 ∷ []) ∷ [] }
    ensures verdict { (path_of three_pushes (over_three 0)).verdicts 0 ≡ Some false }
    ensures under_way { (path_of three_pushes (passage 0 0 true false)).verdicts 0 ≡ None }
{}

/// A sensor that starts at 250 and takes 3 more from each packet wraps at the second; each switch
/// has its own.
fn sensors_are_of_their_switches()
    ensures twice { (path_of wrapping (over_one 0 ++ over_one 1)).sensors 0 (codes "s")
        ≡ word 8 0 ∷ [] }
    ensures once { (path_of wrapping (over_one 0 ++ over_three 1)).sensors 1 (codes "s")
        ≡ word 8 253 ∷ [] }
    ensures never { (path_of wrapping (over_one 0 ++ over_one 1)).sensors 1 (codes "s")
        ≡ word 8 250 ∷ [] }
{}

/// A packet that passes one switch is rejected, and one that passes three is not, also where the
/// halves of the one stand between those of the other.
fn verdicts_of_two_packets()
    ensures one { (path_of in_order (over_one 0)).verdicts 0 ≡ Some true }
    ensures three { (path_of in_order (over_three 0)).verdicts 0 ≡ Some false }
    ensures first { (path_of in_order (passage 1 0 true false ++ (over_one 0
        ++ (passage 1 1 false false ++ passage 1 2 false true)))).verdicts 0 ≡ Some true }
    ensures second { (path_of in_order (passage 1 0 true false ++ (over_one 0
        ++ (passage 1 1 false false ++ passage 1 2 false true)))).verdicts 1 ≡ Some false }
    ensures count { (path_of in_order (over_one 0 ++ over_one 1)).rejected_at 0 ≡ 2 }
{}

/// Init reads the view of the entry half, and telemetry that of the exit half.
fn views_of_the_two_halves()
    ensures entry { (path_of two_views (passage_with no_contents (word 9 3 ∷ []) (word 9 5 ∷ [])
        0 0 true true)).tele 0 (codes "n") ≡ word 9 3 ∷ [] }
    ensures exit { (path_of two_views (passage_with no_contents (word 9 3 ∷ []) (word 9 5 ∷ [])
        0 0 true true)).tele 0 (codes "m") ≡ word 9 5 ∷ [] }
{}

/// Of three hops the first is the first hop, and the third the last.
fn first_and_last_hops()
    ensures first { (path_of two_flags (over_three 0)).tele 0 (codes "f")
        ≡ word 1 1 ∷ word 1 0 ∷ word 1 0 ∷ [] }
    ensures last { (path_of two_flags (over_three 0)).tele 0 (codes "l")
        ≡ word 1 0 ∷ word 1 0 ∷ word 1 1 ∷ [] }
{}

/// Control variables have the contents of their numbers.
fn contents_by_numbers()
    ensures { (path_of two_parts (passage_with two_parts_set [] [] 0 0 true true)).reports
        ≡ reporting 0 0 0 (word 16 500 ∷ word 16 7 ∷ word 16 0 ∷ word 1 1 ∷ word 1 0 ∷ []) ∷ [] }
{}

/// Where telemetry rejects, which no well-typed property does, the exit part sets the flag back: the
/// checker alone rejects.
fn flags_of_early_rejections()
    ensures passing { let d = begun rejects_early in
        (exit_part (law_of rejects_early) (reads_where false) d.tele d.sensors).rejected ≡ false }
    ensures block { (run_of (hop_for [] (reads_where false)) rejects_early.tele
        (begun rejects_early)).rejected ≡ true }
    ensures last { let d = begun rejects_early in
        (exit_part (law_of rejects_early) (reads_where true) d.tele d.sensors).rejected ≡ false }
    ensures hop { (passes rejects_early 0 true false (begun rejects_early)).rejected ≡ false }
{}

/// Init that asks for the last hop, which no well-typed property does: the entry half does not know
/// it yet, in a log and in a whole hop alike.
fn last_hops_in_init()
    ensures log { (path_of asks_early (over_one 0)).tele 0 (codes "l") ≡ word 1 0 ∷ [] }
    ensures hop { (passes asks_early 0 true true (begun asks_early)).tele (codes "l")
        ≡ word 1 0 ∷ [] }
    ensures told { let d = begun asks_early in
        (entry_part (law_of asks_early) (reads_where true) d.tele d.sensors).tele (codes "l")
        ≡ word 1 1 ∷ [] }
{}

/// Reports of init, which come before those of the checker, are kept at a hop.
fn reports_of_both_parts()
    ensures passed { let d = begun reports_twice in
        (hop_run (law_of reports_twice) (reads_where false) (Some (reads_where true)) d.tele
        d.sensors).reports ≡ telling 0 ∷ telling 1 ∷ [] }
    ensures dropped { let d = begun reports_twice in
        (hop_run (law_of reports_twice) (reads_where false) None d.tele d.sensors).reports
        ≡ telling 0 ∷ [] }
    ensures log { (path_of reports_twice (over_one 0)).reports
        ≡ reporting 0 0 0 [] ∷ reporting 0 0 1 [] ∷ [] }
{}
