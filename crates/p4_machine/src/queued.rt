//! A place for a packet between the halves of a passage.

ghost use Rattle.std.specs.Prelude.{◌≡◌, None};
ghost use Rattle.p4_tree.specs.View.{program_of};
ghost use Rattle.p4_machine.specs.Buffers.{is_some_packet, place_of};

use crate::plan::Plan;
use p4_passages::Waiting;
use std::rc::Rc;

/// A place for a packet of a program that waits for egress, with room for so many bytes that the parser
/// does not consume. It shares the program with the switch that made it.
pub struct Queued {
    pub(crate) plan: Rc<Plan>,
    pub(crate) room: u32,
    pub(crate) waiting: Option<Waiting>,
}

impl Drop for Queued {
    fn drop(self) {
        let Queued {
            plan: _plan,
            room: _,
            waiting: _waiting,
        } = self;
    }
}

impl Queued {
    /// A place where nothing waits.
    pub(crate) fn new(plan: Rc<Plan>, room: u32) -> Queued
        ensures program { (place_of result).program ≡ program_of plan.value.program }
        ensures room { (place_of result).room ≡ room }
        ensures empty { (place_of result).waiting ≡ None }
    {
        Queued {
            plan,
            room,
            waiting: None,
        }
    }

    /// Nothing waits any more.
    pub fn clear(&mut self)
        ensures program { (place_of self.new).program ≡ (place_of self.old).program }
        ensures room { (place_of self.new).room ≡ (place_of self.old).room }
        ensures empty { (place_of self.new).waiting ≡ None }
    {
        self.waiting = None;
    }

    /// Whether a packet waits.
    pub fn full(&self) -> bool
        ensures { result ≡ is_some_packet (place_of self.now).waiting }
    {
        match &self.waiting {
            Some(_) => true,
            None => false,
        }
    }
}
