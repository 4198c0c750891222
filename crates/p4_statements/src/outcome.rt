//! What the application of a table chooses.

ghost use Rattle.std.specs.Prelude.{◌≡◌, List, Bool, true, map};
ghost use Rattle.std.specs.Option.{option_map};
ghost use Rattle.bit_values.specs.Bits.{Word};
ghost use Rattle.p4_meaning.specs.Parts as meaning;
ghost use Rattle.p4_meaning.specs.Tables as meaning_tables;
ghost use Rattle.p4_meaning.specs.Tables.{tables_before};
ghost use Rattle.p4_resolved.specs.Lent.{lent};
ghost use Rattle.p4_parts.specs.PartsIn.{action_in, parts_in, table_in};
ghost use Rattle.p4_statements.specs.Outcomes.{outcome_at, outcome_in, outcome_of, written};

use bit_values::Bits;
use p4_parts::{Action, Parts, Table, action_named, table_named};

/// What the application of a table chooses: the action that runs, where there is one, the words for
/// its parameters, and whether an entry fits.
#[derive(Clone, Copy)]
pub struct Outcome<'a> {
    pub action: Option<&'a Action>,
    pub args: &'a [Bits],
    pub hit: bool,
}

/// What the tables of a program hold.
pub trait Tables {
    /// By their full names, where a program has these parts.
    ghost held: { Self → meaning.Parts → meaning_tables.Tables };

    /// They are tables of a program that has these parts.
    ghost fits: { Self → meaning.Parts → Bool };

    /// What the table of a full name chooses for these keys.
    fn choose<'a>(&'a self, parts: &'a Parts, name: &str, keys: &[Bits]) -> Outcome<'a>
        requires { fits self.now (parts_in parts.now) ≡ true }
        ensures { outcome_of result
            ≡ outcome_at (parts_in parts.now) (held self.now (parts_in parts.now)) name.now keys.now };
}

/// Where nothing is loaded: each table has the default that is written.
#[derive(Clone, Copy, Debug)]
pub struct Written;

/// What a table chooses that may be there, where nothing is loaded.
fn written_in<'a>(actions: &'a [Action], table: Option<&'a Table>) -> Outcome<'a>
    ensures { (keys : List Word) → outcome_of result ≡ outcome_in (map action_in actions.now)
        (option_map table_in (lent table.entry)) (written (option_map table_in (lent table.entry))) keys }
{
    match table {
        None => Outcome {
            action: None,
            args: &[],
            hit: false,
        },
        Some(t) => Outcome {
            action: action_named(actions, t.default.action.as_str()),
            args: &t.default.args,
            hit: false,
        },
    }
}

impl Tables for Written {
    ghost held = { λ w p. tables_before p.tables };

    ghost fits = { λ w p. true };

    fn choose<'a>(&'a self, parts: &'a Parts, name: &str, _keys: &[Bits]) -> Outcome<'a> {
        written_in(&parts.actions, table_named(&parts.tables, name))
    }
}
