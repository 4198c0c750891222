//! A property made by hand, and what it lowers to.

ghost use Rattle.std.specs.Prelude.{◌≡◌, [], ◌∷◌, codes, map};
ghost use Rattle.whole_properties.specs.Asked.{IsGiven};
ghost use Rattle.whole_properties.specs.Example.{field, looking, looking_code};
ghost use Rattle.whole_properties.specs.Whole.{lower_monitor};

/// A property in which what a dict has at a header variable is looked for in a list, and then a cell of an
/// array that starts with 7 counts. Its flat code asks twice what the dict has, once for each place of the
/// list, and there is one table.
pub fn a_property_is_lowered()
    ensures given { IsGiven looking }
    ensures telemetry { (lower_monitor looking).fields
        ≡ field (codes "hydra_v_1_c") ∷ field (codes "hydra_v_1_0") ∷ field (codes "hydra_v_1_1") ∷ [] }
    ensures registers { (lower_monitor looking).registers
        ≡ record { name = codes "hydra_s_n"; width = 8; count = 4 } ∷ [] }
    ensures tables { map (λ t. t.name) (lower_monitor looking).tables ≡ codes "hydra_t_0.I" ∷ [] }
    ensures locals { map (λ l. l.1) (lower_monitor looking).entry_locals
        ≡ codes "hydra_f_0" ∷ codes "hydra_k_0_0" ∷ codes "hydra_f_1" ∷ codes "hydra_k_1_0" ∷ [] }
    ensures code { (lower_monitor looking).entry 1 ≡ looking_code }
{}
