//! The captures of a case, read one after the other.

ghost use Rattle.std.specs.Prelude.{◌≡◌, ◌≢◌, ◌≤◌, [], IfOk, length};
ghost use Rattle.std.specs.Bool.{OnTrue, OnFalse};
ghost use Rattle.pcap_io.specs.Holds.{Holds};
ghost use Rattle.pcap_io.specs.declared.fault.CaptureFault.TheVariants.{NoMemory};
ghost use Rattle.job_course.specs.Course.{file};
ghost use Rattle.job_course.specs.Steps.{Follows, Judged};
ghost use Rattle.job_course.specs.declared.status.Area.TheVariants as area;
ghost use Rattle.capture_course.specs.Files.{IsNoCapture, AreFew, AreMany, captures_from, captures_course};
ghost use Rattle.capture_course.specs.Views.{list_of, lists_of, name_of, names_of};

use crate::limits::{has_many, has_volume};
use crate::lines::capture_text;
use case_file::Capture;
use job_course::{Area, Refusal, Status, Stop, cause_text, read_file};
use outside::Store;
use pcap_io::{CaptureFault, Captured, read_capture};
use std::alloc::Global;

/// The greatest length of all captures together, in bytes.
const CAPTURE_LIMIT: u64 = 67_108_864;

/// The records of the captures of the case of this name, each capture by itself, in their order.
pub fn load_captures<S: Store>(
    alloc: Global,
    store: &mut S,
    name: &str,
    captures: &[Capture<'_>],
    room: u16,
    hops: u8,
) -> Result<Vec<Vec<Captured>>, Stop>
    ensures follows { Follows (captures_course name.now room hops (names_of captures.now)) (λ v. lists_of v.items) (S.state store.old) (S.state store.new) result }
{
    let found = load_all(alloc, store, captures)?;
    few(alloc, name, room, hops, found)
}

fn load_all<S: Store>(
    alloc: Global,
    store: &mut S,
    captures: &[Capture<'_>],
) -> Result<Vec<Vec<Captured>>, Stop>
    ensures follows { Follows (captures_from 67108864 [] (names_of captures.now)) (λ v. lists_of v.items) (S.state store.old) (S.state store.new) result }
{
    let mut found = Vec::new(alloc);
    let mut left = CAPTURE_LIMIT;
    for capture in captures {
        let bytes = load_bytes(alloc, store, capture, left)?;
        let records = records_in(alloc, capture, &bytes)?;
        left -= bytes.len() as u64;
        found.push(records)?;
    }
    Ok(found)
}

/// The bytes of a capture's file, of at most so many.
fn load_bytes<S: Store>(
    alloc: Global,
    store: &mut S,
    capture: &Capture<'_>,
    left: u64,
) -> Result<Vec<u8>, Stop>
    ensures follows { Follows (file (name_of capture.now) left area.Capture) (λ b. b.items) (S.state store.old) (S.state store.new) result }
    ensures within { IfOk result (λ b. length b.items ≤ left) }
{
    read_file(alloc, store, capture.file, left, Area::Capture)
}

/// The records that the bytes of a capture's file hold.
fn records_in(alloc: Global, capture: &Capture<'_>, bytes: &[u8]) -> Result<Vec<Captured>, Stop>
    ensures judged { Judged (Holds bytes.now) (IsNoCapture (name_of capture.now) bytes.now) list_of result }
{
    match read_capture(alloc, bytes) {
        Ok(records) => Ok(records),
        Err(fault) => {
            if is_memory(fault) {
                return Err(Stop::Starved);
            }
            Err(Stop::Refused(Refusal {
                status: Status::BadCapture,
                line: capture_text(alloc, capture.file, fault)?,
            }))
        }
    }
}

/// Whether memory ran out.
fn is_memory(fault: CaptureFault) -> bool
    ensures yes { OnTrue result (fault ≡ NoMemory) }
    ensures no { OnFalse result (fault ≢ NoMemory) }
{
    matches!(fault, CaptureFault::NoMemory)
}

/// The captures, where they are within the limits.
fn few(
    alloc: Global,
    name: &str,
    room: u16,
    hops: u8,
    captures: Vec<Vec<Captured>>,
) -> Result<Vec<Vec<Captured>>, Stop>
    ensures judged { Judged (AreFew room hops (lists_of captures.items)) (AreMany name.now room hops (lists_of captures.items)) (λ v. lists_of v.items) result }
{
    if has_many(&captures) {
        return Err(Stop::Refused(Refusal {
            status: Status::BadCapture,
            line: cause_text(alloc, Area::Capture, name, "Packets")?,
        }));
    }
    if has_volume(&captures, room, hops) {
        return Err(Stop::Refused(Refusal {
            status: Status::BadCapture,
            line: cause_text(alloc, Area::Capture, name, "Volume")?,
        }));
    }
    Ok(captures)
}
