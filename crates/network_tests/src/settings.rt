// Worked rows: what new contents of a control variable do, which two tables of a switch hold.
ghost use Rattle.std.specs.Prelude.{◌≡◌, [], ◌∷◌, length};
ghost use Rattle.bit_values.specs.Bits.{word};
ghost use Rattle.indus_tree.specs.State.{single};
ghost use Rattle.network_run.specs.Events.{Enter, Leave, Set};
ghost use Rattle.p4_tables.specs.Programs.{state_before};
ghost use Rattle.control_maps.specs.Numbers.{load_in, set_in};
ghost use Rattle.path_runner.specs.Nets.{tables_of, tables_after};
ghost use Rattle.path_runner.specs.Conditions.{AreMapped, IsEvent};
ghost use Rattle.network_tests.specs.Guarding.{frames_left, guarded, guarded_end, guarding, guards, set_bytes, set_of};

/// The map is one of the switch's tables. They take contents of the variable's shape without equal keys,
/// and no others. Of a variable that no table holds nothing is asked.
fn what_tables_take()
    ensures maps { AreMapped (guarded (set_of (7 ∷ [])) 7).switches (guards ∷ []) }
    ensures set { IsEvent (guarded (set_of (7 ∷ [])) 7) (set_bytes 0 (8 ∷ 9 ∷ [])) }
    ensures same { IsEvent (guarded (set_of (7 ∷ [])) 7) (set_bytes 0 (7 ∷ [])) }
    ensures twice { IsEvent (guarded (set_of (7 ∷ [])) 7) (set_bytes 0 (8 ∷ 8 ∷ [])) → ⊥ }
    ensures scalar { IsEvent (guarded (set_of (7 ∷ [])) 7) (Set 0 0 (single (word 8 7))) → ⊥ }
    ensures other { IsEvent (guarded (set_of (7 ∷ [])) 7) (Set 0 1 (single (word 8 7))) }
    ensures elsewhere { IsEvent (guarded (set_of (7 ∷ [])) 7) (Set 1 0 (set_of (7 ∷ []))) → ⊥ }
{}

/// Both tables hold the variable: a frame leaves where both find its byte.
#[tactic(auto, unfolding(crate::specs::Guarding::guarded_end))]
fn two_tables_hold_one_variable()
    ensures found { frames_left (guarded_end (set_of (7 ∷ [])) 7 []) ≡ (7 ∷ []) ∷ [] }
    ensures missed { frames_left (guarded_end (set_of (8 ∷ [])) 7 []) ≡ [] }
    ensures set { frames_left (guarded_end (set_of []) 7 (set_bytes 0 (8 ∷ 7 ∷ []) ∷ [])) ≡ (7 ∷ []) ∷ [] }
    ensures taken { frames_left (guarded_end (set_of (7 ∷ [])) 7 (set_bytes 0 [] ∷ [])) ≡ [] }
    ensures elsewhere { frames_left (guarded_end (set_of (7 ∷ [])) 7 (Set 1 0 (set_of []) ∷ [])) ≡ (7 ∷ []) ∷ [] }
{}

/// What is set between the halves of a packet is seen by the exit half.
#[tactic(auto, unfolding(crate::specs::Guarding::guarded_end))]
fn contents_set_between_the_halves()
    ensures taken { frames_left (guarded_end (set_of (7 ∷ [])) 7 (Enter 0 ∷ set_bytes 0 [] ∷ Leave 0 ∷ [])) ≡ [] }
    ensures dropped { length (guarded_end (set_of (7 ∷ [])) 7 (Enter 0 ∷ set_bytes 0 [] ∷ Leave 0 ∷ [])).dropped ≡ 1 }
    ensures given { frames_left (guarded_end (set_of []) 7 (Enter 0 ∷ set_bytes 0 (7 ∷ []) ∷ Leave 0 ∷ [])) ≡ (7 ∷ []) ∷ [] }
    ensures back { frames_left (guarded_end (set_of (7 ∷ [])) 7
        (Enter 0 ∷ set_bytes 0 [] ∷ set_bytes 0 (7 ∷ []) ∷ Leave 0 ∷ [])) ≡ (7 ∷ []) ∷ [] }
    ensures behind { frames_left (guarded_end (set_of (7 ∷ [])) 7 (Enter 0 ∷ Leave 0 ∷ set_bytes 0 [] ∷ []))
        ≡ (7 ∷ []) ∷ [] }
{}

/// The same contents set twice are held as if they were set once.
fn contents_set_twice()
    ensures { let st = load_in guards (λ v. set_of []) (state_before guarding) in
        set_in guards 0 (set_of (7 ∷ 8 ∷ [])) (set_in guards 0 (set_of (7 ∷ 8 ∷ [])) st)
        ≡ set_in guards 0 (set_of (7 ∷ 8 ∷ [])) st }
{}

/// A variable that no table holds changes no table.
#[tactic(auto, unfolding(crate::specs::Guarding::guarded_end))]
fn variable_that_no_table_holds()
    ensures tables { tables_after (guarded (set_of (7 ∷ [])) 7) (set_bytes 1 [])
        ≡ tables_of (guarded (set_of (7 ∷ [])) 7) }
    ensures frames { frames_left (guarded_end (set_of (7 ∷ [])) 7 (set_bytes 1 [] ∷ [])) ≡ (7 ∷ []) ∷ [] }
{}

#[test]
fn worked_rows() {
    what_tables_take();
    two_tables_hold_one_variable();
    contents_set_between_the_halves();
    contents_set_twice();
    variable_that_no_table_holds();
}
