//! The captures that a run writes.

ghost use Rattle.std.specs.Prelude.{◌≡◌, ◌≤◌, ◌++◌, [], ℕ, List, length, map, get_or, All, IfOk, OnOk, string_bytes};
ghost use Rattle.network_run.specs.Network as network;
ghost use Rattle.pcap_io.specs.Written.{capture_bytes, record_bytes};
ghost use Rattle.job_course.specs.Output.{files_of, file_of};
ghost use Rattle.run_captures.specs.Captures as captures;
ghost use Rattle.run_captures.specs.Sorted.{AreShort, AreSorted, IsPut, lists_files, port_of, switch_of, those_at};
ghost use Rattle.path_runner.specs.Packets.{sent_of};
ghost use Rattle.run_captures.specs.Views.{time_view, lent_view, list_view, front_view};

use network_file::Network;
use path_runner::Sent;
use pcap_io::{put_header, put_record};
use std::alloc::{AllocError, Global};

/// How many ports a switch has.
const PORTS: usize = 511;

/// The bytes of a capture's header, and of the header of a record.
const FILE_HEADER: usize = 24;

const RECORD_HEADER: usize = 16;

/// When a packet was captured: whole seconds, and the microseconds past them.
#[derive(Clone, Copy, Debug, PartialEq, Eq)]
pub struct Time {
    pub seconds: u32,
    pub micros: u32,
}

/// When the packet of a number was captured.
fn time_of(times: &[Time], packet: u32) -> Time
    ensures { time_view result ≡ captures.time_of (map time_view times.now) packet }
{
    match times.get(packet as usize) {
        Some(time) => *time,
        None => Time {
            seconds: 0,
            micros: 0,
        },
    }
}

/// A frame goes behind those of a capture.
fn put_frame(file: &mut Vec<u8>, times: &[Time], sent: &Sent) -> Result<(), AllocError>
    requires { length sent.now.frame.items ≤ 65791 }
    ensures { OnOk result (file.new.items ≡ file.old.items ++ record_bytes (captures.record_for (map time_view times.now) (sent_of sent.now))) }
{
    let time = time_of(times, sent.packet);
    let frame = sent.frame.as_slice();
    put_record(file, time.seconds, time.micros, frame)
}

/// So many lists, with no frame.
fn no_frames<'a>(alloc: Global, count: usize) -> Result<Vec<Vec<&'a Sent>>, AllocError>
    ensures { IfOk result (λ v. (key : network.Sent → ℕ) → AreSorted key count [] (map list_view v.items)) }
{
    let mut lists = Vec::new(alloc);
    for _ in 0..count {
        lists.push(Vec::new(alloc))?;
    }
    Ok(lists)
}

/// A frame goes behind those of a number, if there is a list for it.
fn put<'a>(lists: &mut Vec<Vec<&'a Sent>>, at: usize, sent: &'a Sent) -> Result<(), AllocError>
    ensures { OnOk result ((key : network.Sent → ℕ) → key (sent_of sent.now) ≡ at →
        IsPut key (sent_of sent.now) (map list_view lists.old.items) (map list_view lists.new.items)) }
{
    if at >= lists.len() {
        return Ok(());
    }
    lists[at].push(sent)?;
    Ok(())
}

/// The frames that switches sent, by the numbers of the switches.
fn by_switch<'a>(
    alloc: Global,
    count: u16,
    sent: &'a [Sent],
) -> Result<Vec<Vec<&'a Sent>>, AllocError>
    ensures { IfOk result (λ v. AreSorted switch_of count (map sent_of sent.now) (map list_view v.items)) }
{
    let mut lists = no_frames(alloc, count as usize)?;
    for x in sent {
        put(&mut lists, x.switch as usize, x)?;
    }
    Ok(lists)
}

/// The frames of a switch, by the ports by which it sent them.
fn by_port<'a>(alloc: Global, sent: &[&'a Sent]) -> Result<Vec<Vec<&'a Sent>>, AllocError>
    ensures { IfOk result (λ v. AreSorted port_of 511 (map lent_view sent.now) (map list_view v.items)) }
{
    let mut lists = no_frames(alloc, PORTS)?;
    for x in sent {
        put(&mut lists, x.port as usize, *x)?;
    }
    Ok(lists)
}

/// How many bytes the capture of frames has; the greatest number, where that is less.
fn capture_size(frames: &[&Sent]) -> usize {
    let mut size = FILE_HEADER;
    for x in frames {
        size = size
            .saturating_add(RECORD_HEADER)
            .saturating_add(x.frame.len());
    }
    size
}

/// The capture of frames, which takes its room at once.
fn capture(alloc: Global, times: &[Time], frames: &[&Sent]) -> Result<Vec<u8>, AllocError>
    requires { AreShort (map lent_view frames.now) }
    ensures { IfOk result (λ v. v.items ≡ capture_bytes (map (captures.record_for (map time_view times.now)) (map lent_view frames.now))) }
{
    let mut file = Vec::with_capacity(alloc, capture_size(frames))?;
    put_header(&mut file)?;
    for x in frames {
        put_frame(&mut file, times, *x)?;
    }
    Ok(file)
}

/// The front of the names of files, and what kind of frames they hold.
#[derive(Clone, Copy, Debug)]
pub struct Front<'a> {
    pub out: &'a str,
    pub kind: &'a str,
}

/// The name of the capture of a port.
fn capture_name(
    alloc: Global,
    front: &Front<'_>,
    name: &str,
    port: usize,
) -> Result<String, AllocError>
    ensures { IfOk result (λ s. string_bytes s ≡ captures.capture_name (front_view front.now) name.now port) }
{
    let Front { out, kind } = *front;
    format!(in alloc; "{out}.{kind}.{name}.{port}.pcap")
}

/// The file of a port goes behind the others, where a frame left by it.
fn put_file(
    alloc: Global,
    files: &mut Vec<(String, Vec<u8>)>,
    front: &Front<'_>,
    name: &str,
    times: &[Time],
    port: usize,
    frames: &[&Sent],
) -> Result<(), AllocError>
    requires { AreShort (map lent_view frames.now) }
    ensures { OnOk result (files_of files.new.items
        ≡ files_of files.old.items ++ captures.port_file (front_view front.now) name.now port
        (map (captures.record_for (map time_view times.now)) (map lent_view frames.now))) }
{
    if frames.is_empty() {
        return Ok(());
    }
    let file = capture(alloc, times, frames)?;
    let name = capture_name(alloc, front, name, port)?;
    files.push((name, file))?;
    Ok(())
}

/// Those of all ports of a switch, by their lists of frames.
fn put_files(
    alloc: Global,
    files: &mut Vec<(String, Vec<u8>)>,
    front: &Front<'_>,
    name: &str,
    times: &[Time],
    lists: &[Vec<&Sent>],
) -> Result<(), AllocError>
    requires { (p : ℕ) → AreShort (get_or (map list_view lists.now) p []) }
    ensures { OnOk result (files_of files.new.items
        ≡ files_of files.old.items ++ lists_files (front_view front.now) name.now (map time_view times.now) 0 (map list_view lists.now)) }
{
    for port in 0..lists.len() {
        put_file(alloc, files, front, name, times, port, &lists[port])?;
    }
    Ok(())
}

/// The captures of the frames that a switch sent.
#[tactic(auto, unfolding(crate::specs::Captures::switch_files))]
fn put_switch(
    alloc: Global,
    files: &mut Vec<(String, Vec<u8>)>,
    front: &Front<'_>,
    name: &str,
    times: &[Time],
    sent: &[&Sent],
) -> Result<(), AllocError>
    requires { AreShort (map lent_view sent.now) }
    ensures { (switch : ℕ) (xs : List network.Sent) → map lent_view sent.now ≡ those_at switch_of switch xs → OnOk result (files_of files.new.items
        ≡ files_of files.old.items ++ captures.switch_files (front_view front.now) name.now (map time_view times.now) xs switch) }
{
    let lists = by_port(alloc, sent)?;
    put_files(alloc, files, front, name, times, &lists)
}

/// The captures of the frames that the switches of a network sent, behind other files: one for each
/// switch and port by which a frame left, in the order of the switches and then of their ports.
pub fn put_captures(
    alloc: Global,
    files: &mut Vec<(String, Vec<u8>)>,
    front: &Front<'_>,
    network: &Network,
    times: &[Time],
    sent: &[Sent],
) -> Result<(), AllocError>
    requires { All (λ x. length x.frame.items ≤ 65791) sent.now }
    ensures { OnOk result (files_of files.new.items
        ≡ files_of files.old.items ++ captures.switches_files (front_view front.now) (map time_view times.now) (map sent_of sent.now) 0 network.now.names) }
{
    let lists = by_switch(alloc, network.count(), sent)?;
    for switch in 0..network.count() {
        let name = network.name(switch);
        put_switch(alloc, files, front, name, times, &lists[switch as usize])?;
    }
    Ok(())
}
