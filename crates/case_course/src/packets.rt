//! The packets of a case's captures.

ghost use Rattle.std.specs.Prelude.{◌≡◌, ◌≤◌, ◌++◌, length, map, IfOk, OnOk};
ghost use Rattle.pcap_io.specs.Record.{records_of};
ghost use Rattle.capture_course.specs.Views.{lists_of};
ghost use Rattle.case_file.specs.Views.{case_view};
ghost use Rattle.network_course.specs.Views.{place_view, place_views};
ghost use Rattle.path_runner.specs.Packets.{arrival_of};
ghost use Rattle.run_captures.specs.Views.{time_view};
ghost use Rattle.job_course.specs.Steps.{Follows};
ghost use Rattle.case_course.specs.Packets as spec;
ghost use Rattle.case_course.specs.Course.{packets_course};
ghost use Rattle.case_course.specs.Views.{packets_view};

use capture_course::load_captures;
use case_file::Case;
use job_course::Stop;
use network_course::Place;
use outside::Store;
use path_runner::Packet;
use pcap_io::Captured;
use run_captures::Time;
use std::alloc::{AllocError, Global};

/// Packets, each with the time of its capture.
#[derive(Drop)]
pub struct Packets {
    pub packets: Vec<Packet>,
    pub times: Vec<Time>,
}

/// The times of one capture go behind others.
fn put_times(alloc: Global, times: &mut Vec<Time>, captured: &[Captured]) -> Result<(), AllocError>
    ensures { OnOk result (map time_view times.new.items
        ≡ map time_view times.old.items ++ map spec.time_at (records_of captured.now)) }
{
    for c in captured {
        times.push(Time {
            seconds: c.seconds,
            micros: c.micros,
        })?;
    }
    Ok(())
}

/// The times of captures.
fn times(alloc: Global, captures: &[Vec<Captured>]) -> Result<Vec<Time>, AllocError>
    ensures { IfOk result (λ v. map time_view v.items ≡ spec.times_of (lists_of captures.now)) }
{
    let mut times = Vec::new(alloc);
    for captured in captures {
        put_times(alloc, &mut times, captured)?;
    }
    Ok(times)
}

/// The frames of one capture go behind others.
fn put_packets(
    alloc: Global,
    packets: &mut Vec<Packet>,
    place: Place,
    captured: Vec<Captured>,
) -> Result<(), AllocError>
    ensures { OnOk result (map arrival_of packets.new.items
        ≡ map arrival_of packets.old.items ++ map (spec.arrival_at (place_view place)) (records_of captured.items)) }
{
    for c in captured {
        packets.push(Packet {
            switch: place.switch,
            port: place.port,
            bytes: c.bytes,
        })?;
    }
    Ok(())
}

/// The frames of captures, each of which enters at its place.
fn arrivals(
    alloc: Global,
    places: Vec<Place>,
    captures: Vec<Vec<Captured>>,
) -> Result<Vec<Packet>, AllocError>
    ensures { IfOk result (λ v. map arrival_of v.items
        ≡ spec.arrivals_of (place_views places.items) (lists_of captures.items)) }
{
    let mut packets = Vec::new(alloc);
    for (place, captured) in places.into_iter().zip(captures) {
        put_packets(alloc, &mut packets, place, captured)?;
    }
    Ok(packets)
}

/// The frames of captures with their times.
fn packets_of(
    alloc: Global,
    places: Vec<Place>,
    captures: Vec<Vec<Captured>>,
) -> Result<Packets, AllocError>
    ensures { IfOk result (λ p. packets_view p
        ≡ spec.packets_of (place_views places.items) (lists_of captures.items)) }
{
    let times = times(alloc, &captures)?;
    let packets = arrivals(alloc, places, captures)?;
    Ok(Packets { packets, times })
}

/// The packets of the captures of a case, which enter at these places.
pub fn load_packets<S: Store>(
    alloc: Global,
    store: &mut S,
    name: &str,
    case: &Case<'_>,
    places: Vec<Place>,
) -> Result<Packets, Stop>
    ensures follows { Follows (packets_course name.now (case_view case.now) (place_views places.items)) packets_view (S.state store.old) (S.state store.new) result }
    ensures few { IfOk result (λ p. length p.packets.items ≤ 100000) }
{
    let captures = load_captures(alloc, store, name, &case.captures, case.room, case.hops)?;
    Ok(packets_of(alloc, places, captures)?)
}
