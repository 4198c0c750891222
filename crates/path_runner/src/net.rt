//! A network that runs.

ghost use Rattle.std.specs.Prelude.{◌≡◌, ◌≤◌, ◌+◌, true, length, map};
ghost use Rattle.std.specs.List.{list_all};
ghost use Rattle.network_run.specs.Network.{IsWiring};
ghost use Rattle.network_file.specs.Wiring.{wiring_of};
ghost use Rattle.path_runner.specs.Conditions.{AreMapped};
ghost use Rattle.set_contents.specs.Maps.{maps_of};
ghost use Rattle.path_runner.specs.Places.{place_in, limits_of};
ghost use Rattle.path_runner.specs.Props.{mapped_prop};
ghost use Rattle.path_runner.specs.Sound.{AreMade, is_within, going_on};
ghost use Rattle.path_runner.specs.Switches.{switch_of};

use crate::halves::{enter, leave};
use crate::handed::{flights, stations, switches};
use crate::log::RunLog;
use crate::packet::Packet;
use crate::parked::take_parked;
use crate::place::{Limits, Place};
use crate::station::Station;
use crate::traffic::Traffic;
use indus_tree::Decl;
use indus_values::ControlValue;
use network_file::{Event, Network};
use p4_machine::{FrameBuf, Pass};
use set_contents::Mapped;
use std::alloc::{AllocError, Global};
use std::mem;

/// A network whose switches pass packets, one event after the other.
#[derive(Drop)]
pub struct Net<P: Pass + Drop> {
    stations: Vec<Station<P>>,
    maps: Vec<Vec<Mapped>>,
    network: Network,
    places: Vec<Place<P>>,
    traffic: Traffic,
    limits: Limits,
    given_up: bool,
    ghost switches: { length stations.items ≡ length network.names },
    ghost lists: { length maps.items ≡ length network.names },
    ghost mapped: { AreMapped (map (λ s. switch_of P.program P.tables P.cells s.switch) stations.items) (maps_of maps.items) } by { mapped_prop _ _ },
    ghost wired: { IsWiring (wiring_of network) },
    ghost within: { list_all (is_within (length network.names) (limits_of limits)) (map place_in places.items) ≡ true },
    ghost made: { AreMade (map (λ s. P.program s.switch) stations.items) places.items },
    ghost few: { length places.items ≤ 100000 },
    ghost link: { limits.link ≤ 65791 },
    ghost counted: { traffic.dropped + traffic.lost + going_on (map place_in places.items) ≤ 4294967295 },
}

impl<P: Pass + Drop> Net<P> {
    ghost use Rattle.std.specs.Prelude.{◌≡◌, ◌<◌, ◌↔◌, [], ◌∷◌, length, get_or, map as each, false, IfOk, IsErr, IsTrue, OnOk};
    ghost use Rattle.network_run.specs.Events.{Enter, Leave, Set, to_its_end, closing};
    ghost use Rattle.network_run.specs.Network.{Over};
    ghost use Rattle.indus_values.specs.View.{contents_of};
    ghost use Rattle.network_file.specs.Events.{event_of};
    ghost use Rattle.path_runner.specs.Nets.{AreKept, IsSame, LeavesTables, RunsTo, tables_of, tables_after};
    ghost use Rattle.path_runner.specs.Starts.{Starts, StartsWorlds, state_before};
    ghost use Rattle.path_runner.specs.Conditions.{IsEvent, IsHandedIn};
    ghost use Rattle.path_runner.specs.Packets.{arrival_of};
    ghost use Rattle.path_runner.specs.Views.{state_of, is_given_up, log_of};

    /// A network before the first event: switches, each with a buffer for its passages, and the packets, each
    /// in flight at an edge port. In `map` each switch has the list of its tables that hold control variables:
    /// the numbers of the table, of its first action and of the variable, and the variable's declaration. A
    /// packet may pass `hops` switches, and a frame on a link has at most `limit` bytes.
    ///
    /// # Errors
    ///
    /// `AllocError` where memory runs out.
    pub fn new(
        alloc: Global,
        switches: Vec<P>,
        bufs: Vec<FrameBuf>,
        network: Network,
        packets: Vec<Packet>,
        map: Vec<Vec<(u32, u32, u32, Decl)>>,
        hops: u8,
        limit: u32,
    ) -> Result<Net<P>, AllocError>
        requires { IsHandedIn network (record { hops = hops; link = limit }) (each (switch_of P.program P.tables P.cells) switches.items)
            bufs.items (maps_of map.items) (each arrival_of packets.items) }
        ensures state { IfOk result (λ n. state_of n ≡ state_before network (record { hops = hops; link = limit })
            (each (switch_of P.program P.tables P.cells) switches.items) (maps_of map.items)
            (each arrival_of packets.items)) }
        ensures starts { IfOk result (λ n. Starts (each (switch_of P.program P.tables P.cells) switches.items)
            (each arrival_of packets.items) (state_of n)) }
        ensures worlds { IfOk result (λ n. StartsWorlds (each (switch_of P.program P.tables P.cells) switches.items)
            (maps_of map.items) (each arrival_of packets.items) (state_of n)) }
        ensures given_up { IfOk result (λ n. is_given_up n ≡ false) }
    {
        let stations = stations(alloc, network.count(), switches, bufs)?;
        let places = flights(alloc, packets)?;
        Ok(Net {
            stations,
            maps: map,
            network,
            places,
            traffic: Traffic::new(alloc),
            limits: Limits { hops, link: limit },
            given_up: false,
        })
    }

    /// A packet in flight enters its switch. For a packet in another place nothing changes.
    fn enter(&mut self, alloc: Global, packet: u32) -> Result<(), AllocError>
        requires { packet < length (state_of self.old).places }
        ensures same { IsSame (state_of self.old) (state_of self.new) }
        ensures tables { tables_of (state_of self.new) ≡ tables_of (state_of self.old) }
        ensures enter { OnOk result (RunsTo (state_of self.old) (Enter packet ∷ []) (state_of self.new)) }
    {
        let at = packet as usize;
        let Place::Flying(flight) = &self.places[at] else {
            return Ok(());
        };
        let station = &mut self.stations[flight.switch as usize];
        let next = enter(alloc, station, &mut self.traffic, packet, flight)?;
        let _before = mem::replace(&mut self.places[at], next);
        Ok(())
    }

    /// A packet that waits leaves its switch. For a packet in another place nothing changes.
    fn leave(&mut self, alloc: Global, packet: u32) -> Result<(), AllocError>
        requires { packet < length (state_of self.old).places }
        ensures same { IsSame (state_of self.old) (state_of self.new) }
        ensures tables { tables_of (state_of self.new) ≡ tables_of (state_of self.old) }
        ensures leave { OnOk result (RunsTo (state_of self.old) (Leave packet ∷ []) (state_of self.new)) }
    {
        let at = packet as usize;
        let Some(parked) = take_parked(&mut self.places, at) else {
            return Ok(());
        };
        let station = &mut self.stations[parked.switch as usize];
        let next = leave(
            alloc,
            station,
            &mut self.traffic,
            &self.network,
            self.limits,
            packet,
            parked,
        )?;
        let _over = mem::replace(&mut self.places[at], next);
        Ok(())
    }

    /// New contents of a control variable of a switch go into each of its tables.
    fn set(
        &mut self,
        alloc: Global,
        switch: u16,
        variable: u32,
        contents: &ControlValue,
    ) -> Result<(), AllocError>
        requires { IsEvent (state_of self.old) (Set switch variable (contents_of contents.now)) }
        ensures same { IsSame (state_of self.old) (state_of self.new) }
        ensures others { LeavesTables (Set switch variable (contents_of contents.now))
            (state_of self.old) (state_of self.new) }
        ensures tables { OnOk result (tables_of (state_of self.new)
            ≡ tables_after (state_of self.old) (Set switch variable (contents_of contents.now))) }
        ensures set { OnOk result (RunsTo (state_of self.old)
            (Set switch variable (contents_of contents.now) ∷ []) (state_of self.new)) }
    {
        let at = switch as usize;
        self.stations[at].set(alloc, &self.maps[at], variable, contents)
    }

    /// One event happens.
    fn happen(&mut self, alloc: Global, event: &Event) -> Result<(), AllocError>
        requires { IsEvent (state_of self.old) (event_of event.now) }
        ensures same { IsSame (state_of self.old) (state_of self.new) }
        ensures others { LeavesTables (event_of event.now) (state_of self.old) (state_of self.new) }
        ensures tables { OnOk result (tables_of (state_of self.new)
            ≡ tables_after (state_of self.old) (event_of event.now)) }
        ensures happens { OnOk result (RunsTo (state_of self.old) (event_of event.now ∷ []) (state_of self.new)) }
    {
        match event {
            Event::Enter(packet) => self.enter(alloc, *packet),
            Event::Leave(packet) => self.leave(alloc, *packet),
            Event::Set {
                switch,
                variable,
                contents,
            } => self.set(alloc, *switch, *variable, contents),
        }
    }

    /// One event happens: the entry half of a packet in flight, the exit half of a packet that waits, or
    /// new contents of a control variable of a switch, which go into each of its tables there in one step.
    /// For a packet in another place nothing changes.
    ///
    /// # Errors
    ///
    /// Where memory runs out the net is given up, and each further call answers this.
    pub fn step(&mut self, alloc: Global, event: &Event) -> Result<(), AllocError>
        requires { IsEvent (state_of self.old) (event_of event.now) }
        ensures same { IsSame (state_of self.old) (state_of self.new) }
        ensures others { LeavesTables (event_of event.now) (state_of self.old) (state_of self.new) }
        ensures tables { OnOk result (tables_of (state_of self.new)
            ≡ tables_after (state_of self.old) (event_of event.now)) }
        ensures happens { OnOk result (RunsTo (state_of self.old) (event_of event.now ∷ []) (state_of self.new)) }
        ensures given_up { IsErr result ↔ IsTrue (is_given_up self.new) }
        ensures stays { IsTrue (is_given_up self.old) → IsErr result }
    {
        if self.given_up {
            return Err(AllocError);
        }
        let done = self.happen(alloc, event);
        self.given_up = done.is_err();
        done
    }

    /// Whether a packet is at its end.
    fn is_over(&self, packet: u32) -> bool
        requires { packet < length (state_of self.now).places }
        ensures over { IsTrue result → get_or (state_of self.now).places packet Over ≡ Over }
    {
        matches!(self.places[packet as usize], Place::Over)
    }

    /// A packet goes on to its end, through as many further switches as it may pass at most. Where it is at its end
    /// before, what is left of this changes nothing.
    fn end(&mut self, alloc: Global, packet: u32) -> Result<(), AllocError>
        requires { packet < length (state_of self.old).places }
        ensures same { IsSame (state_of self.old) (state_of self.new) }
        ensures tables { tables_of (state_of self.new) ≡ tables_of (state_of self.old) }
        ensures end { OnOk result (RunsTo (state_of self.old) (to_its_end packet (state_of self.old).limits.hops) (state_of self.new)) }
    {
        self.leave(alloc, packet)?;
        for _ in 0..self.limits.hops {
            if self.is_over(packet) {
                return Ok(());
            }
            self.enter(alloc, packet)?;
            self.leave(alloc, packet)?;
        }
        Ok(())
    }

    /// The closing phase: each packet goes on to its end, in the order of their numbers. What has happened
    /// then is handed back, with the switches and the network.
    ///
    /// # Errors
    ///
    /// `AllocError` where memory runs out, or the net is given up.
    pub fn finish(mut self, alloc: Global) -> Result<RunLog<P>, AllocError>
        ensures ends { IfOk result (λ x. RunsTo (state_of self) (closing (state_of self).limits.hops 0 (length (state_of self).places))
            (log_of P.program P.tables P.cells (state_of self).limits x)) }
        ensures kept { IfOk result (λ x. AreKept (state_of self) (log_of P.program P.tables P.cells (state_of self).limits x)) }
        ensures tables { IfOk result (λ x. tables_of (log_of P.program P.tables P.cells (state_of self).limits x)
            ≡ tables_of (state_of self)) }
        ensures given_up { IsTrue (is_given_up self) → IsErr result }
    {
        if self.given_up {
            return Err(AllocError);
        }
        for packet in 0..self.places.len() {
            self.end(alloc, packet as u32)?;
        }
        let Net {
            stations,
            network,
            traffic,
            ..
        } = self;
        let switches = switches(alloc, stations)?;
        Ok(RunLog {
            wires: traffic.wires,
            edges: traffic.edges,
            told: traffic.told,
            dropped: traffic.dropped,
            lost: traffic.lost,
            switches,
            net: network,
        })
    }
}
