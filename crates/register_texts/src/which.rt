//! Which registers are meant.

ghost use Rattle.std.specs.Prelude.{◌≡◌};
ghost use Rattle.register_texts.specs.Which.{is_one_of};

use p4_values::same_text;

/// Which registers of a program are meant, by their names.
#[derive(Clone, Copy, Debug, PartialEq, Eq)]
pub enum Which {
    /// All of them.
    All,
    /// Those of the forwarding program, whose names do not begin with `hydra_`.
    Forwarding,
    /// Those of sensors, whose names begin with `hydra_s_`.
    Sensors,
    /// The one that counts rejected packets, `hydra_rejects`.
    Rejects,
}

impl Which {
    /// Whether the register of this name is one of them.
    pub fn has(self, name: &str) -> bool
        ensures { result ≡ is_one_of self name.now }
    {
        match self {
            Which::All => true,
            Which::Forwarding => !name.starts_with("hydra_"),
            Which::Sensors => name.starts_with("hydra_s_"),
            Which::Rejects => same_text(name, "hydra_rejects"),
        }
    }
}
