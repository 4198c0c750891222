//! Worked rows of the rules on declarations and editions that no text spells. Each is proved by computation.

ghost use Rattle.std.specs.Prelude.{codes, ◌≡◌, ◌∷◌, [], None, Some, false};
ghost use Rattle.indus_tree.specs.Tree.{list, one, read, set, dict};
ghost use Rattle.indus_tree.specs.declared.tree.DeclKind.TheVariants.{Tele, Sensor, Header, Control};
ghost use Rattle.indus_tree.specs.declared.tree.Ty.TheVariants.{Bit, Bool as Truth};
ghost use Rattle.indus_rules.specs.declared.rule.Rule.TheVariants.{BadSize, KindDiffers};
ghost use Rattle.indus_run_tests.specs.Single.{declared, started, first_of, of_edition};

/// Variables of a kind that has no such shape, and initial values that are no sensor's or no literals.
fn unspelled_declarations()
    ensures list_of_header { first_of (declared Header (list (Bit 8) 2)) ≡ Some (7, KindDiffers) }
    ensures list_of_control { first_of (declared Control (list (Bit 8) 2)) ≡ Some (7, KindDiffers) }
    ensures set_of_packet { first_of (declared Tele (set (Bit 8 ∷ []))) ≡ Some (7, KindDiffers) }
    ensures dict_of_sensor { first_of (declared Sensor (dict (Bit 8 ∷ []) Truth)) ≡ Some (7, KindDiffers) }
    ensures start_of_packet { first_of (started Tele (one Truth) (read 14 (codes "first_hop"))) ≡ Some (7, KindDiffers) }
    ensures start_by_name { first_of (started Sensor (one (Bit 16)) (read 14 (codes "switch_id"))) ≡ Some (7, KindDiffers) }
    ensures many_cells { first_of (declared Sensor (list Truth 256)) ≡ Some (7, BadSize) }
    ensures cells { first_of (declared Sensor (list Truth 255)) ≡ None }
{}

/// An edition that is neither 1 nor 2.
fn unspelled_editions()
    ensures none { of_edition 0 ≡ Some (7, BadSize) }
    ensures first { of_edition 1 ≡ None }
    ensures second { of_edition 2 ≡ None }
    ensures third { of_edition 3 ≡ Some (7, BadSize) }
{}
