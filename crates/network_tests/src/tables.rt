// Worked rows: a P4 program with an action and a table is one that is linked, and what its entries do.
ghost use Rattle.std.specs.Prelude.{◌≡◌, [], ◌∷◌, Some, None};
ghost use Rattle.bit_values.specs.Bits.{word};
ghost use Rattle.p4_meaning.specs.Parts.{parts_of};
ghost use Rattle.own_code.specs.Forwarding.{IsForwarding};
ghost use Rattle.network_tests.specs.Routing.{go_by, holding, nothing, port_for, routing, way_of};

/// The program is among those of which linkage is a law.
fn program_with_a_table()
    ensures { IsForwarding (parts_of routing) }
{}

/// The entry that fits sends the frame.
#[tactic(auto, unfolding(crate::specs::Routing::port_for))]
fn entry_that_fits()
    ensures one { port_for (holding (way_of 7 3 ∷ []) nothing) 7 ≡ Some (word 9 3) }
    ensures other { port_for (holding (way_of 7 3 ∷ way_of 8 4 ∷ []) nothing) 8 ≡ Some (word 9 4) }
{}

/// Where none fits, the table misses, and the frame is dropped; also where the default has sent it.
#[tactic(auto, unfolding(crate::specs::Routing::port_for))]
fn no_entry_fits()
    ensures none { port_for (holding [] nothing) 7 ≡ None }
    ensures other { port_for (holding (way_of 7 3 ∷ []) nothing) 8 ≡ None }
    ensures default { port_for (holding (way_of 7 3 ∷ []) (go_by 5)) 8 ≡ None }
{}

#[test]
fn worked_rows() {
    program_with_a_table();
    entry_that_fits();
    no_entry_fits();
}
