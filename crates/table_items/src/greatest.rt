//! The greatest number of items that a control variable has at each switch.

ghost use Rattle.std.specs.Prelude.{◌≡◌, map, length};
ghost use Rattle.indus_values.specs.View.{contents_of};
ghost use Rattle.network_file.specs.Events.{event_of};
ghost use Rattle.table_items.specs.Items.{items_of, held_items};
ghost use Rattle.table_items.specs.Steps.{raise, with_event, noted};
ghost use Rattle.table_items.specs.Views.{contents_view};

use indus_values::ControlValue;
use network_file::Event;

/// How many items contents have.
fn items(contents: &ControlValue) -> usize
    ensures { result ≡ items_of (contents_of contents.now) }
{
    match contents {
        ControlValue::One(_) => 0,
        ControlValue::Members(keys) => keys.len(),
        ControlValue::Pairs(pairs) => pairs.len(),
    }
}

/// How many items the contents of a place have.
fn items_at(held: &[ControlValue], seat: usize) -> usize
    ensures { result ≡ held_items seat (map contents_of held.now) }
{
    match held.get(seat) {
        Some(contents) => items(contents),
        None => 0,
    }
}

/// Puts how many items the variable of a place has at each switch before any event.
fn hold(most: &mut [usize], control: &[Vec<ControlValue>], seat: usize)
    requires { length most.old ≡ length control.now }
    ensures { most.new ≡ map (held_items seat) (map contents_view control.now) }
{
    for switch in 0..control.len() {
        most[switch] = items_at(&control[switch], seat);
    }
}

/// Puts the number at the place, where the one there is smaller.
#[tactic(auto, using(crate::proofs::RaiseLemmas::set_greater, crate::proofs::RaiseLemmas::raise_none))]
fn raise(most: &mut [usize], place: usize, items: usize)
    ensures { most.new ≡ raise most.old place items }
{
    if place < most.len() {
        most[place] = most[place].max(items);
    }
}

/// Takes an event into account.
fn note(most: &mut [usize], variable: u32, event: &Event)
    ensures { most.new ≡ with_event variable most.old (event_of event.now) }
{
    match event {
        Event::Enter(_) | Event::Leave(_) => {}
        Event::Set {
            switch,
            variable: set,
            contents,
        } => {
            if *set == variable {
                raise(most, *switch as usize, items(contents));
            }
        }
    }
}

/// Puts the greatest number of items that the variable of a number has at each switch, where `seat`
/// is its place among the control variables.
pub(crate) fn greatest(
    most: &mut [usize],
    variable: u32,
    seat: usize,
    control: &[Vec<ControlValue>],
    events: &[Event],
)
    requires { length most.old ≡ length control.now }
    ensures { most.new ≡ noted variable (map (held_items seat) (map contents_view control.now))
        (map event_of events.now) }
{
    hold(most, control, seat);
    for event in events {
        note(most, variable, event);
    }
}
