//! The halves of a packet's passage, with what they tell.

ghost use Rattle.std.specs.Prelude.{◌≡◌, ◌+◌, ◌<◌, ◌≤◌, ◌++◌, length, map, IfOk, IfSome, OnOk, OnErr};
ghost use Rattle.std.specs.Option.{option_map};
ghost use Rattle.p4_machine.specs.Buffers.{IsPlaceFor};
ghost use Rattle.switch_machines.specs.Programs.{network_digest};
ghost use Rattle.network_run.specs.NetworkRun.{told_by, queued_or_over, dropped_if_none};
ghost use Rattle.path_runner.specs.Switches.{entry_at, exit_at};
ghost use Rattle.network_file.specs.Wiring.{wiring_of};
ghost use Rattle.path_runner.specs.Places.{place_in, limits_of};
ghost use Rattle.path_runner.specs.Departures.{left_departure};
ghost use Rattle.path_runner.specs.Sound.{IsMadeAt};
ghost use Rattle.path_runner.specs.Views.{station_in, traffic_in};

use crate::packet::Sent;
use crate::place::{Flight, Limits, Parked, Place, Seat};
use crate::sending::send;
use crate::station::Station;
use crate::traffic::Traffic;
use network_file::Network;
use p4_machine::Pass;
use std::alloc::{AllocError, Global};

/// The entry half of a packet's passage: where the packet is then.
pub(crate) fn enter<P: Pass + Drop>(
    alloc: Global,
    station: &mut Station<P>,
    traffic: &mut Traffic,
    packet: u32,
    flight: &Flight,
) -> Result<Place<P>, AllocError>
    requires short { length flight.now.frame.items ≤ 65791 }
    requires dropped { traffic.old.dropped < 4294967295 }
    ensures program { (station_in station.new).program ≡ (station_in station.old).program }
    ensures tables { (station_in station.new).tables ≡ (station_in station.old).tables }
    ensures cells { OnOk result ((station_in station.new).cells
        ≡ (entry_at (station_in station.old) flight.now.port flight.now.frame.items).registers) }
    ensures place { IfOk result (λ x. place_in x ≡ queued_or_over flight.now.switch flight.now.port flight.now.passed
        (entry_at (station_in station.old) flight.now.port flight.now.frame.items).queued) }
    ensures made { IfOk result (IsMadeAt flight.now.switch (station_in station.new).program) }
    ensures told { OnOk result (traffic_in traffic.new ≡ record (traffic_in traffic.old) {
      told = (traffic_in traffic.old).told ++ told_by packet flight.now.switch
          (map network_digest (entry_at (station_in station.old) flight.now.port flight.now.frame.items).digests);
      dropped = traffic.old.dropped + length (dropped_if_none packet
          (entry_at (station_in station.old) flight.now.port flight.now.frame.items).queued);
    }) }
    ensures dropped_so_far { traffic.new.dropped ≤ traffic.old.dropped + 1 }
    ensures kept { OnErr result (traffic.new.dropped ≡ traffic.old.dropped) }
    ensures lost { traffic.new.lost ≡ traffic.old.lost }
{
    let queued = station.enter(alloc, flight.port, &flight.frame)?;
    traffic.tell(packet, flight.switch, station.buf.digests())?;
    match queued {
        Some(queued) => Ok(Place::Waiting(Parked {
            switch: flight.switch,
            port: flight.port,
            queued,
            passed: flight.passed,
        })),
        None => {
            traffic.dropped += 1;
            Ok(Place::Over)
        }
    }
}

/// The frame that a switch sends of a packet that waits, or `None` where the packet is dropped.
fn sent<P: Pass + Drop>(
    alloc: Global,
    station: &mut Station<P>,
    traffic: &mut Traffic,
    packet: u32,
    switch: u16,
    queued: Seat<P>,
) -> Result<Option<Sent>, AllocError>
    requires { IsPlaceFor (station_in station.old).program (P.place queued.place.value) }
    ensures program { (station_in station.new).program ≡ (station_in station.old).program }
    ensures tables { (station_in station.new).tables ≡ (station_in station.old).tables }
    ensures cells { OnOk result ((station_in station.new).cells
        ≡ (exit_at (station_in station.old) (P.place queued.place.value).waiting).registers) }
    ensures out { IfOk result (λ x. option_map (λ s. (s.port, s.frame.items)) x
        ≡ (exit_at (station_in station.old) (P.place queued.place.value).waiting).out) }
    ensures sender { IfOk result (λ x. IfSome x (λ s. (s.packet ≡ packet) × (s.switch ≡ switch))) }
    ensures told { OnOk result (traffic_in traffic.new ≡ record (traffic_in traffic.old) {
      told = (traffic_in traffic.old).told ++ told_by packet switch
          (map network_digest (exit_at (station_in station.old) (P.place queued.place.value).waiting).digests);
    }) }
    ensures dropped { traffic.new.dropped ≡ traffic.old.dropped }
    ensures lost { traffic.new.lost ≡ traffic.old.lost }
{
    let out = station.leave(alloc, queued)?;
    traffic.tell(packet, switch, station.buf.digests())?;
    match out {
        Some(port) => {
            let frame = station.buf.frame().to_vec(alloc)?;
            Ok(Some(Sent {
                packet,
                switch,
                port,
                frame,
            }))
        }
        None => Ok(None),
    }
}

/// The exit half of the passage of a packet that waits: where the packet is then.
pub(crate) fn leave<P: Pass + Drop>(
    alloc: Global,
    station: &mut Station<P>,
    traffic: &mut Traffic,
    network: &Network,
    limits: Limits,
    packet: u32,
    parked: Parked<P>,
) -> Result<Place<P>, AllocError>
    requires made { IsPlaceFor (station_in station.old).program (P.place parked.queued.place.value) }
    requires passed { parked.passed < limits.hops }
    requires counted { traffic.old.dropped + traffic.old.lost < 4294967295 }
    ensures program { (station_in station.new).program ≡ (station_in station.old).program }
    ensures tables { (station_in station.new).tables ≡ (station_in station.old).tables }
    ensures cells { OnOk result ((station_in station.new).cells
        ≡ (exit_at (station_in station.old) (P.place parked.queued.place.value).waiting).registers) }
    ensures place { IfOk result (λ x. place_in x ≡ (left_departure (wiring_of network.now) (limits_of limits)
        (traffic_in traffic.old) packet parked.switch parked.passed
        (exit_at (station_in station.old) (P.place parked.queued.place.value).waiting)).place) }
    ensures made { IfOk result (IsMadeAt parked.switch (station_in station.new).program) }
    ensures traffic { OnOk result (traffic_in traffic.new ≡ (left_departure (wiring_of network.now) (limits_of limits)
        (traffic_in traffic.old) packet parked.switch parked.passed
        (exit_at (station_in station.old) (P.place parked.queued.place.value).waiting)).traffic) }
    ensures counted { traffic.new.dropped + traffic.new.lost ≤ traffic.old.dropped + traffic.old.lost + 1 }
{
    let Parked {
        switch,
        port: _,
        queued,
        passed,
    } = parked;
    match sent(alloc, station, traffic, packet, switch, queued)? {
        Some(sent) => send(alloc, traffic, network, limits, passed, sent),
        None => {
            traffic.dropped += 1;
            Ok(Place::Over)
        }
    }
}
