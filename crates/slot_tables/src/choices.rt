//! What the tables of a switch choose.

ghost use Rattle.std.specs.Prelude.{◌≡◌, ◌<◌, length};
ghost use Rattle.slot_statements.specs.Tables.{numbered_of};
ghost use Rattle.slot_tables.specs.Choices.{choices_in};

use bit_values::Bits;
use p4_tables::TableState;
use slot_statements::{NumberedOutcome, NumberedTables};

/// The tables of a switch, which are asked by their numbers. That of a number that no table has chooses action 0 with
/// no words, and that is a miss.
#[derive(Clone, Copy)]
pub struct SlotTables<'a> {
    pub state: &'a TableState,
}

/// What the table of a number chooses.
fn chosen<'a>(state: &'a TableState, table: u32, keys: &[Bits]) -> NumberedOutcome<'a>
    requires { table < length state.now }
    ensures { numbered_of result ≡ choices_in state.now table keys.now }
{
    let chosen = state.choose(table, keys);
    NumberedOutcome {
        action: chosen.action,
        args: chosen.args,
        hit: chosen.hit,
    }
}

impl NumberedTables for SlotTables<'_> {
    ghost chosen = { λ t. choices_in t.state.now };

    fn choose<'a>(&'a self, table: u32, keys: &[Bits]) -> NumberedOutcome<'a> {
        if self.state.has(table) {
            chosen(self.state, table, keys)
        } else {
            NumberedOutcome {
                action: 0,
                args: &[],
                hit: false,
            }
        }
    }
}
