//! What a net is made of.

ghost use Rattle.std.specs.Prelude.{◌≡◌, map, IfOk};
ghost use Rattle.path_runner.specs.Conditions.{AreFor};
ghost use Rattle.path_runner.specs.Packets.{arrival_of};
ghost use Rattle.path_runner.specs.Starts.{in_flight};
ghost use Rattle.path_runner.specs.Places.{place_in};
ghost use Rattle.path_runner.specs.Switches.{switch_of};
ghost use Rattle.path_runner.specs.Views.{station_in};

use crate::packet::Packet;
use crate::place::{Flight, Place};
use crate::station::Station;
use p4_machine::{FrameBuf, Pass};
use std::alloc::{AllocError, Global};

/// The switches with their buffers, so many.
pub(crate) fn stations<P: Pass + Drop>(
    alloc: Global,
    count: u16,
    switches: Vec<P>,
    bufs: Vec<FrameBuf>,
) -> Result<Vec<Station<P>>, AllocError>
    requires { AreFor (map (switch_of P.program P.tables P.cells) switches.items) bufs.items }
    ensures { IfOk result (λ v. map station_in v.items ≡ map (switch_of P.program P.tables P.cells) switches.items) }
{
    let mut stations = Vec::with_capacity(alloc, count as usize)?;
    for (switch, buf) in switches.into_iter().zip(bufs) {
        stations.push(Station::new(switch, buf))?;
    }
    Ok(stations)
}

/// The packets in flight.
pub(crate) fn flights<P: Pass + Drop>(
    alloc: Global,
    packets: Vec<Packet>,
) -> Result<Vec<Place<P>>, AllocError>
    ensures { IfOk result (λ v. map place_in v.items ≡ in_flight (map arrival_of packets.items)) }
{
    let mut places = Vec::new(alloc);
    for packet in packets {
        places.push(Place::Flying(Flight {
            switch: packet.switch,
            port: packet.port,
            frame: packet.bytes,
            passed: 0,
        }))?;
    }
    Ok(places)
}

/// The switches alone.
pub(crate) fn switches<P: Pass + Drop>(
    alloc: Global,
    stations: Vec<Station<P>>,
) -> Result<Vec<P>, AllocError>
    ensures { IfOk result (λ v. map (switch_of P.program P.tables P.cells) v.items ≡ map station_in stations.items) }
{
    let mut switches = Vec::new(alloc);
    for station in stations {
        switches.push(station.into_switch())?;
    }
    Ok(switches)
}
