//! Applications of tables, and the actions that they run.

ghost use Rattle.std.specs.Prelude.{◌≡◌, ◌≤◌, length, map};
ghost use Rattle.slot_terms.specs.States.{state_of};
ghost use Rattle.slot_statements.specs.Tables.{numbered_of};
ghost use Rattle.slot_controls.specs.Steps.{action_slots_of, application_of, bound_for, is_asked, outcome_for, position};

use bit_values::Bits;
use slot_statements::{NumberedOutcome, NumberedTables, bind_words, put_keys};
use slot_terms::{State, Typed};

/// An action that an application may run: its number, and the slots of its parameters with masks of their
/// widths.
#[derive(Drop)]
pub struct ActionSlots {
    pub number: u32,
    pub params: Vec<(u32, u128)>,
}

/// The application of a table: its number, the terms of its keys, and the actions that it may run.
#[derive(Drop)]
pub struct Application {
    pub table: u32,
    pub keys: Vec<Typed>,
    pub actions: Vec<ActionSlots>,
}

/// Whether an application goes as it is asked for.
pub(crate) fn is_asked(asked: bool, hit: bool) -> bool
    ensures { result ≡ is_asked asked hit }
{
    if asked { hit } else { !hit }
}

/// What a table chooses. The words of its keys go into the buffer, which has room for them.
pub(crate) fn outcome_for<'a, T: NumberedTables>(
    tables: &'a T,
    a: &Application,
    buffer: &mut [Bits],
    s: &State,
) -> NumberedOutcome<'a>
    requires { length (application_of a.now).keys ≤ length buffer.old }
    ensures { numbered_of result ≡ outcome_for (T.chosen tables.now) (application_of a.now) (state_of s.now) }
{
    let count = a.keys.len();
    let words = &mut buffer[..count];
    put_keys(&a.keys, s, words);
    tables.choose(a.table, words)
}

/// The parameters of the first action of a number get words; the answer is how many stand before it.
pub(crate) fn bind_chosen(
    actions: &[ActionSlots],
    number: u32,
    words: &[Bits],
    s: &mut State,
) -> usize
    ensures at { result ≡ position (map action_slots_of actions.now) number }
    ensures bound { state_of s.new ≡ bound_for (map action_slots_of actions.now) number words.now (state_of s.old) }
{
    for i in 0..actions.len() {
        if actions[i].number == number {
            bind_words(&actions[i].params, words, s);
            return i;
        }
    }
    actions.len()
}
