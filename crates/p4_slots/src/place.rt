//! A place for what waits in slots.

ghost use Rattle.std.specs.Prelude.{◌≡◌, ◌*◌, ◌≤◌, Some, true, false, length, drop, IfOk, vec_capacity};
ghost use Rattle.bit_values.specs.Bytes.{bits_of};
ghost use Rattle.p4_tree.specs.View.{program_of};
ghost use Rattle.p4_meaning.specs.Parts.{parts_of};
ghost use Rattle.slot_terms.specs.States.{state_of};
ghost use Rattle.slot_metadata.specs.Laws.{IsStored};
ghost use Rattle.slot_passages.specs.Laws.{HasSize};
ghost use Rattle.p4_slots.specs.SlotPlaces.{places_for, queued_by, waiting_in};
ghost use Rattle.p4_slots.specs.Plans.{IsSlotPlan};

use crate::plan::SlotPlan;
use crate::room::empty_state;
use slot_terms::State;
use std::alloc::{AllocError, Global};
use std::marker::Model;
use std::mem;
use std::rc::Rc;

/// A place for a packet that waits for egress: its slots, and the bytes that the parser left, for which
/// there is room. It shares the program with the switch that made it.
pub struct SlotQueued {
    plan: Rc<SlotPlan>,
    room: u32,
    state: State,
    rest: Vec<u8>,
    skip: u8,
    full: bool,
}

impl Drop for SlotQueued {
    fn drop(self) {
        let SlotQueued {
            plan: _plan,
            room: _,
            state: _state,
            rest: _rest,
            skip: _,
            full: _,
        } = self;
    }
}

impl Model for SlotQueued {
    ghost use Rattle.std.specs.Coded.{codes};
    ghost use Rattle.p4_tree.specs.contracts.statement.Expr as expr;
    ghost use Rattle.p4_tree.specs.contracts.statement.Stmt as stmt;
    ghost use Rattle.p4_slots.specs.SlotPlaces.{SlotPlace, slot_place_of};
    ghost use Rattle.p4_slots.specs.Kept.{IsSlotPlace};

    ghost Value = { SlotPlace };

    ghost coded = { Prim.hlevel (codes, expr.the_row.coded, stmt.the_row.coded) };

    ghost view = { slot_place_of };

    ghost invariant = { IsSlotPlace };
}

/// The bytes of a frame from one on.
pub(crate) fn bytes_from(frame: &[u8], first: usize) -> &[u8]
    requires { first ≤ length frame.now }
    ensures { result.now ≡ drop first frame.now }
{
    &frame[first..]
}

/// The bytes of a frame from one on take the place of others.
fn put_rest(rest: &mut Vec<u8>, frame: &[u8], first: usize)
    requires first { first ≤ length frame.now }
    requires room { length frame.now ≤ vec_capacity rest.old }
    ensures rest { rest.new.items ≡ drop first frame.now }
    ensures room { vec_capacity rest.old ≤ vec_capacity rest.new }
{
    rest.clear();
    let _put = rest.extend_from_slice(bytes_from(frame, first));
}

impl SlotQueued {
    /// A place where nothing waits, with room for so many bytes that the parser does not consume.
    pub(crate) fn new(
        alloc: Global,
        plan: Rc<SlotPlan>,
        room: u32,
    ) -> Result<SlotQueued, AllocError>
        requires { IsSlotPlan plan.value }
        ensures program { IfOk result (λ q. q.program ≡ plan.value.program) }
        ensures room { IfOk result (λ q. q.room ≡ room) }
        ensures empty { IfOk result (λ q. q.full ≡ false) }
    {
        let state = empty_state(alloc, plan.as_ref())?;
        let rest = Vec::with_capacity(alloc, room as usize)?;
        Ok(SlotQueued {
            plan,
            room,
            state,
            rest,
            skip: 0,
            full: false,
        })
    }

    /// Whether a packet waits.
    pub fn full(&self) -> bool
        ensures { result ≡ self.now.full }
    {
        self.full
    }

    /// Nothing waits any more.
    pub(crate) fn clear(&mut self)
        ensures empty { self.new.full ≡ false }
        ensures program { self.new.program ≡ self.old.program }
        ensures room { self.new.room ≡ self.old.room }
    {
        self.full = false;
    }

    /// The bytes that the parser left.
    pub(crate) fn rest(&self) -> &[u8]
        ensures rest { result.now ≡ self.now.rest }
        ensures short { length result.now ≤ 65791 }
    {
        &self.rest
    }

    /// How many bits of the first of them the parser had taken.
    pub(crate) fn skip(&self) -> u8
        ensures skip { result ≡ self.now.skip }
        ensures few { result ≤ 7 }
    {
        self.skip
    }

    /// A packet comes to its place: the slots are exchanged, and the bytes of its frame that the parser left,
    /// from a bit on, are kept.
    pub(crate) fn hold(&mut self, state: &mut State, frame: &[u8], at: usize)
        requires size { HasSize (places_for (parts_of (program_of self.old.program))) (state_of state.old) }
        requires stored { IsStored (places_for (parts_of (program_of self.old.program))) (state_of state.old) }
        requires within { at ≤ 8 * length frame.now }
        requires short { length frame.now ≤ 65791 }
        requires room { length frame.now ≤ self.old.room }
        ensures waiting { waiting_in self.new ≡ Some (queued_by self.old.program (state_of state.old) (drop at (bits_of frame.now))) }
        ensures full { self.new.full ≡ true }
        ensures program { self.new.program ≡ self.old.program }
        ensures room { self.new.room ≡ self.old.room }
        ensures size { HasSize (places_for (parts_of (program_of self.old.program))) (state_of state.new) }
    {
        mem::swap(&mut self.state, state);
        put_rest(&mut self.rest, frame, at / 8);
        self.skip = (at % 8) as u8;
        self.full = true;
    }

    /// The slots of the packet that waits are taken from its place, and others come there.
    pub(crate) fn release(&mut self, state: &mut State)
        requires full { self.old.full ≡ true }
        requires size { HasSize (places_for (parts_of (program_of self.old.program))) (state_of state.old) }
        ensures state { state_of state.new ≡ self.old.state }
        ensures stored { IsStored (places_for (parts_of (program_of self.old.program))) (state_of state.new) }
        ensures size { HasSize (places_for (parts_of (program_of self.old.program))) (state_of state.new) }
        ensures empty { self.new.full ≡ false }
        ensures program { self.new.program ≡ self.old.program }
        ensures room { self.new.room ≡ self.old.room }
        ensures rest { self.new.rest ≡ self.old.rest }
        ensures skip { self.new.skip ≡ self.old.skip }
    {
        mem::swap(&mut self.state, state);
        self.full = false;
    }
}
