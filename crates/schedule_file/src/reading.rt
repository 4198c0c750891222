//! The events of a schedule, member by member.

ghost use Rattle.std.specs.Prelude.{◌≡◌, ◌≤◌, nat_lt, slice_set, map, IfOk};
ghost use Rattle.serde_json.specs.View.{view};
ghost use Rattle.indus_types.specs.Sums.{cut};
ghost use Rattle.json_parts.specs.Turns.{in_turn};
ghost use Rattle.network_run.specs.Events.{Enter, Leave};
ghost use Rattle.schedule_file.specs.Members.{events_of};
ghost use Rattle.schedule_file.specs.Schedule as schedule;
ghost use Rattle.schedule_file.specs.Views.{Gives, around_of, around_view, member_view, event_views};

use crate::fault::ScheduleFault;
use crate::member::{Around, Member, read_member};
use indus_types::TypedProperty;
use json_parts::list_of;
use network_file::{Event, Network};
use serde_json::Value;
use std::alloc::{AllocError, Global};
use std::marker::Model;

/// The greatest number of packets that may wait behind a member.
const MOST_WAITING: usize = 1024;

/// The events so far, and which packets wait.
#[derive(Drop)]
pub(crate) struct Reading {
    events: Vec<Event>,
    /// For each packet, whether its last half so far is an entry half.
    waiting: Vec<bool>,
    /// How many wait.
    count: usize,
}

impl Model for Reading {
    ghost use Rattle.std.specs.Prelude.{◌≡◌};
    ghost use Rattle.schedule_file.specs.Schedule as schedule;
    ghost use Rattle.schedule_file.specs.Views.{event_views};

    ghost Value = { schedule.Reading };

    ghost view = { λ r. record { events = event_views r.events; waiting = r.waiting.items } };

    ghost invariant = { λ r. r.count ≡ schedule.count_of r.waiting.items };
}

fn one_if(waits: bool) -> usize
    ensures value { result ≡ schedule.one_if waits }
    ensures small { result ≤ 1 }
{
    if waits { 1 } else { 0 }
}

impl Reading {
    fn start(alloc: Global, around: Around<'_>) -> Result<Reading, AllocError>
        ensures { IfOk result (λ r. r ≡ schedule.start (around_view around.entry)) }
    {
        Ok(Reading {
            events: Vec::new(alloc),
            waiting: vec![in alloc; false; around.packets as usize]?,
            count: 0,
        })
    }

    fn mark(&mut self, packet: u32, waits: bool)
        ensures events { self.new.events ≡ self.old.events }
        ensures waiting { self.new.waiting ≡ slice_set self.old.waiting packet waits }
    {
        let place = packet as usize;
        if place < self.waiting.len() {
            let waited = self.waiting[place];
            self.waiting[place] = waits;
            self.count = self.count - one_if(waited) + one_if(waits);
        }
    }

    fn enter(&mut self, packet: u32) -> Result<(), AllocError>
        ensures { IfOk result (λ _. self.new ≡ schedule.with_event self.old (Enter packet)) }
    {
        self.events.push(Event::Enter(packet))?;
        self.mark(packet, true);
        Ok(())
    }

    fn leave(&mut self, packet: u32) -> Result<(), AllocError>
        ensures { IfOk result (λ _. self.new ≡ schedule.with_event self.old (Leave packet)) }
    {
        self.events.push(Event::Leave(packet))?;
        self.mark(packet, false);
        Ok(())
    }

    fn add(&mut self, member: Member) -> Result<(), AllocError>
        ensures { IfOk result (λ _. self.new
            ≡ schedule.with_events self.old (events_of (member_view member))) }
    {
        match member {
            Member::Passage(packet) => {
                self.enter(packet)?;
                self.leave(packet)
            }
            Member::Enter(packet) => self.enter(packet),
            Member::Leave(packet) => self.leave(packet),
            Member::Set(setting) => {
                self.events.push(Event::Set {
                    switch: setting.switch,
                    variable: setting.variable,
                    contents: setting.contents,
                })?;
                Ok(())
            }
            Member::Unread => Ok(()),
        }
    }

    /// Whether more packets wait than may.
    fn is_full(&self) -> bool
        ensures { result ≡ nat_lt schedule.most_waiting (schedule.count_of self.now.waiting) }
    {
        self.count > MOST_WAITING
    }

    /// Reads the member of a number.
    fn read(
        &mut self,
        alloc: Global,
        around: Around<'_>,
        number: usize,
        value: &Value,
    ) -> Result<(), ScheduleFault>
        ensures { Gives (λ _. self.new) result
            (schedule.with_member (around_view around.entry) self.old number (view value.now)) }
    {
        let at = place(number);
        let member = read_member(alloc, around, at, value)?;
        self.add(member)?;
        if self.is_full() {
            return Err(ScheduleFault::Queued { at });
        }
        Ok(())
    }
}

/// The number of a member, or the greatest of 32 bits where that is smaller.
fn place(number: usize) -> u32
    ensures { result ≡ cut number }
{
    if number > u32::MAX as usize {
        return u32::MAX;
    }
    number as u32
}

fn read_members(alloc: Global, around: Around<'_>, list: &[Value]) -> Result<Reading, ScheduleFault>
    ensures { Gives (λ r. r) result (in_turn (schedule.with_member (around_view around.entry))
        (schedule.start (around_view around.entry)) 0 (map view list.now)) }
{
    let mut reading = Reading::start(alloc, around)?;
    for (i, value) in list.iter().enumerate() {
        reading.read(alloc, around, i, value)?;
    }
    Ok(reading)
}

/// The events of a schedule over so many packets, in order: a packet's number stands for its entry
/// half and then its exit half, `{"enter": number}` and `{"leave": number}` for one of them, and
/// `{"set": {"switch": name, "variable": name, "value": contents}}` for new contents of a control
/// variable. Without a property what is set is passed over, whatever it is.
///
/// # Errors
///
/// The fault of the first member that has one, exactly where there is one; else `NoMemory` alone,
/// where memory runs out. `Queued` comes where behind the member, and behind none before it, more
/// than 1,024 packets have an entry half as their last half so far.
#[tactic(auto, unfolding(crate::specs::Schedule::schedule_of))]
pub fn read_schedule(
    alloc: Global,
    value: &Value,
    packets: u32,
    property: Option<&TypedProperty>,
    network: &Network,
) -> Result<Vec<Event>, ScheduleFault>
    ensures { Gives event_views result
        (schedule.schedule_of (around_of packets property.entry network.now) (view value.now)) }
{
    let Some(list) = list_of(value) else {
        return Err(ScheduleFault::Shape { at: 0 });
    };
    let around = Around {
        packets,
        property,
        network,
    };
    let reading = read_members(alloc, around, list)?;
    Ok(reading.events)
}
