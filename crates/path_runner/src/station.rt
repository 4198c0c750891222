//! A switch with its buffer and a spare place.

ghost use Rattle.std.specs.Prelude.{◌≡◌, ◌≤◌, true, length, IfOk, IfSome, IsOk, OnOk};
ghost use Rattle.std.specs.Option.{option_map, option_and_then};
ghost use Rattle.std.proofs.Props.{props};
ghost use Rattle.indus_values.specs.View.{contents_of};
ghost use Rattle.p4_meaning.specs.Parts.{parts_of};
ghost use Rattle.p4_tables.specs.Programs.{shapes};
ghost use Rattle.control_maps.specs.Numbers.{IsMapOf, IsSettable, set_in};
ghost use Rattle.p4_machine.specs.Buffers.{IsMadeFor, IsPlaceFor, is_some_packet};
ghost use Rattle.set_contents.specs.Maps.{map_of};
ghost use Rattle.set_contents.specs.Others.{OthersHold};
ghost use Rattle.path_runner.specs.Spares.{HasRoom, IsSpareFor};

use crate::place::Seat;
use indus_values::ControlValue;
use p4_machine::{Entered, FrameBuf, Pass, Passed};
use set_contents::{Mapped, set_variable};
use std::alloc::{AllocError, Global};

/// A switch, a buffer for its passages, and a place that a packet left, for a next one.
pub(crate) struct Station<P: Pass + Drop> {
    pub switch: P,
    pub buf: FrameBuf,
    pub spare: Option<Seat<P>>,
    ghost fits: { IsMadeFor (P.program switch) buf.needs },
    ghost spare_fits: { IfSome spare (λ s. IsSpareFor (P.program switch) (P.place s.place.value)) } by { Prim.hlevel props },
}

impl<P: Pass + Drop> Drop for Station<P> {
    fn drop(self) {
        let Station {
            switch: _switch,
            buf: _buf,
            spare: _spare,
        } = self;
    }
}

impl<P: Pass + Drop> Station<P> {
    ghost use Rattle.path_runner.specs.Switches.{switch_of, entry_at, exit_at};
    ghost use Rattle.path_runner.specs.Views.{station_in};

    /// A switch with its buffer, and no spare place yet.
    pub fn new(switch: P, buf: FrameBuf) -> Station<P>
        requires { IsMadeFor (P.program switch) buf.needs }
        ensures { station_in result ≡ switch_of P.program P.tables P.cells switch }
    {
        Station {
            switch,
            buf,
            spare: None,
        }
    }

    /// The switch alone.
    pub fn into_switch(self) -> P
        ensures { switch_of P.program P.tables P.cells result ≡ station_in self }
    {
        let Station {
            switch,
            buf: _buf,
            spare: _spare,
        } = self;
        switch
    }

    /// A place with room for so many bytes of rest: the spare one where it has it, else a new one.
    fn seat(&mut self, alloc: Global, bytes: u32) -> Result<Seat<P>, AllocError>
        ensures station { station_in self.new ≡ station_in self.old }
        ensures made { IfOk result (λ s. IsSpareFor (station_in self.old).program (P.place s.place.value)) }
        ensures room { IfOk result (λ s. bytes ≤ (P.place s.place.value).room) }
        ensures spare { HasRoom self.old.spare bytes → IsOk result }
    {
        match self.spare.take() {
            Some(spare) if spare.room >= bytes => Ok(spare),
            _ => Ok(Seat {
                place: Box::new(alloc, self.switch.room(alloc, bytes)?)?,
                room: bytes,
            }),
        }
    }

    /// A place that a packet left is spare, unless a larger one is.
    fn give_back(&mut self, seat: Seat<P>)
        requires { IsSpareFor (station_in self.old).program (P.place seat.place.value) }
        ensures station { station_in self.new ≡ station_in self.old }
        ensures spare { HasRoom self.new.spare seat.room }
        ensures frame { self.new.buf.frame ≡ self.old.buf.frame }
        ensures digests { self.new.buf.digests ≡ self.old.buf.digests }
    {
        let larger = match &self.spare {
            Some(spare) => spare.room < seat.room,
            None => true,
        };
        if larger {
            self.spare = Some(seat);
        }
    }

    /// The entry half of a frame's passage: the packet that waits, or `None` where it is dropped. The
    /// buffer has the digests.
    pub fn enter(
        &mut self,
        alloc: Global,
        port: u16,
        frame: &[u8],
    ) -> Result<Option<Seat<P>>, AllocError>
        requires { length frame.now ≤ 65791 }
        ensures program { (station_in self.new).program ≡ (station_in self.old).program }
        ensures tables { (station_in self.new).tables ≡ (station_in self.old).tables }
        ensures cells { OnOk result ((station_in self.new).cells
            ≡ (entry_at (station_in self.old) port frame.now).registers) }
        ensures queued { IfOk result (λ q. option_and_then (λ s. (P.place s.place.value).waiting) q
            ≡ (entry_at (station_in self.old) port frame.now).queued) }
        ensures full { IfOk result (λ q. IfSome q (λ s. is_some_packet (P.place s.place.value).waiting ≡ true)) }
        ensures made { IfOk result (λ q. IfSome q (λ s. IsPlaceFor (station_in self.new).program (P.place s.place.value))) }
        ensures digests { OnOk result (self.new.buf.digests
            ≡ (entry_at (station_in self.old) port frame.now).digests) }
    {
        let mut seat = self.seat(alloc, frame.len() as u32)?;
        match self
            .switch
            .enter(alloc, port, frame, &mut self.buf, &mut seat.place)?
        {
            Entered::Queued => Ok(Some(seat)),
            Entered::Dropped => {
                self.give_back(seat);
                Ok(None)
            }
        }
    }

    /// The exit half of the passage of a packet that waits: the port by which the buffer's frame goes
    /// out, or `None` where the packet is dropped. The buffer has the digests. The place that the packet
    /// leaves stays with the switch.
    pub fn leave(&mut self, alloc: Global, mut queued: Seat<P>) -> Result<Option<u16>, AllocError>
        requires { IsPlaceFor (station_in self.old).program (P.place queued.place.value) }
        ensures program { (station_in self.new).program ≡ (station_in self.old).program }
        ensures tables { (station_in self.new).tables ≡ (station_in self.old).tables }
        ensures cells { OnOk result ((station_in self.new).cells
            ≡ (exit_at (station_in self.old) (P.place queued.place.value).waiting).registers) }
        ensures out { IfOk result (λ port. option_map (λ p. (p, self.new.buf.frame)) port
            ≡ (exit_at (station_in self.old) (P.place queued.place.value).waiting).out) }
        ensures digests { OnOk result (self.new.buf.digests
            ≡ (exit_at (station_in self.old) (P.place queued.place.value).waiting).digests) }
        ensures spare { OnOk result (HasRoom self.new.spare queued.room) }
    {
        let passed = self.switch.leave(alloc, &mut queued.place, &mut self.buf)?;
        self.give_back(queued);
        match passed {
            Passed::Out { port } => Ok(Some(port)),
            Passed::Dropped => Ok(None),
        }
    }

    /// New contents of a control variable go into each of its tables.
    pub fn set(
        &mut self,
        alloc: Global,
        map: &[Mapped],
        variable: u32,
        contents: &ControlValue,
    ) -> Result<(), AllocError>
        requires mapped { IsMapOf (parts_of (station_in self.old).program) (station_in self.old).tables (map_of map.now) }
        requires settable { IsSettable (station_in self.old).tables (map_of map.now) variable (contents_of contents.now) }
        ensures program { (station_in self.new).program ≡ (station_in self.old).program }
        ensures cells { (station_in self.new).cells ≡ (station_in self.old).cells }
        ensures mapped { IsMapOf (parts_of (station_in self.old).program) (station_in self.new).tables (map_of map.now) }
        ensures shapes { shapes (station_in self.new).tables ≡ shapes (station_in self.old).tables }
        ensures others { OthersHold (map_of map.now) variable (station_in self.old).tables (station_in self.new).tables }
        ensures tables { OnOk result ((station_in self.new).tables
            ≡ set_in (map_of map.now) variable (contents_of contents.now) (station_in self.old).tables) }
    {
        set_variable(alloc, &mut self.switch, map, variable, contents)
    }
}
