//! The tables of a switch, as a passage asks them.

ghost use Rattle.std.specs.Prelude.{◌≡◌, ℕ, List, true, map};
ghost use Rattle.std.specs.Option.{option_map};
ghost use Rattle.p4_meaning.specs.Actions.{action_named};
ghost use Rattle.p4_parts.specs.PartsIn.{action_in, parts_in, table_in};
ghost use Rattle.p4_resolved.specs.Lent.{lent};
ghost use Rattle.p4_statements.specs.Outcomes.{outcome_at, outcome_of};
ghost use Rattle.p4_tables.specs.Programs.{shapes};
ghost use Rattle.p4_tables.specs.Named.{action_name, tables_in, table_place};
ghost use Rattle.p4_machine.specs.Loaded.{fits_in};

use bit_values::Bits;
use lex_text::Name;
use p4_parts::{Action, Parts, Table, action_named};
use p4_statements::{Outcome, Tables};
use p4_tables::{Chosen, TableState};
use p4_values::same_text;

/// The tables of a program, with what is loaded.
#[derive(Clone, Copy)]
pub(crate) struct Loaded<'a> {
    pub state: &'a TableState,
}

/// The action of a number: the first of that action's name.
fn action_at(actions: &[Action], number: usize) -> Option<&Action>
    ensures { option_map action_in (lent result)
        ≡ action_named (map action_in actions.now) (action_name (map action_in actions.now) number) }
{
    if number < actions.len() {
        action_named(actions, actions[number].name.as_str())
    } else {
        action_named(actions, "NoAction")
    }
}

/// How many tables stand before the first of a name.
fn place_of(tables: &[Table], name: &str) -> usize
    ensures { result ≡ table_place (map table_in tables.now) name.now }
{
    for i in 0..tables.len() {
        if same_text(tables[i].name.as_str(), name) {
            return i;
        }
    }
    tables.len()
}

/// What a table chose, by the actions of its program.
fn outcome<'a>(actions: &'a [Action], chosen: Chosen<'a>) -> Outcome<'a>
    ensures { outcome_of result ≡ record {
      action = action_named (map action_in actions.now) (action_name (map action_in actions.now) chosen.entry.action);
      args = chosen.entry.args.now;
      hit = chosen.entry.hit;
    } }
{
    Outcome {
        action: action_at(actions, chosen.action as usize),
        args: chosen.args,
        hit: chosen.hit,
    }
}

/// What the table of a number chooses, where there is one.
fn chosen_at<'a>(
    parts: &'a Parts,
    state: &'a TableState,
    place: usize,
    keys: &[Bits],
) -> Outcome<'a>
    requires { fits_in (parts_in parts.now).tables (shapes state.now) ≡ true }
    ensures { (x : List ℕ) → place ≡ table_place (parts_in parts.now).tables x → outcome_of result
        ≡ outcome_at (parts_in parts.now) (tables_in (parts_in parts.now) state.now) x keys.now }
{
    if place < parts.tables.len() {
        outcome(&parts.actions, state.choose(place as u32, keys))
    } else {
        Outcome {
            action: None,
            args: &[],
            hit: false,
        }
    }
}

impl Tables for Loaded<'_> {
    ghost held = { λ l p. tables_in p l.state.now };

    ghost fits = { λ l p. fits_in p.tables (shapes l.state.now) };

    fn choose<'a>(&'a self, parts: &'a Parts, name: &str, keys: &[Bits]) -> Outcome<'a> {
        chosen_at(parts, self.state, place_of(&parts.tables, name), keys)
    }
}
