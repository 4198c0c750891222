//! Reading a capture.

ghost use Rattle.std.specs.Prelude.{◌≡◌, ◌+◌, ◌≤◌, ◌<◌, ◌↔◌, ℕ, List, length, take, drop, All, IfOk, IfErr, MatchResult};
ghost use Rattle.pcap_io.specs.declared.fault.CaptureFault.TheVariants.{
  NoMemory,
  ShortHeader,
  BadMagic,
  BadVersion,
  NotEthernet,
  TornRecord,
  TooLong,
};
ghost use Rattle.pcap_io.specs.Record.{Record, record_of, records_of};
ghost use Rattle.pcap_io.specs.Holds.{HasHeader, StandsAt, Run, Holds};
ghost use Rattle.pcap_io.specs.Faults.{
  HasBadMagic,
  HasBadVersion,
  HasOtherLink,
  HasTornRecord,
  HasLongRecord,
  ComesWhere,
};
ghost use Rattle.pcap_io.specs.Answer.{RefusesHeader, StopsAt, RunStops, IsAnswer};

use crate::captured::Captured;
use crate::fault::CaptureFault;
use crate::form::{Form, Order, Precision, form_of, u16_at, u32_at};
use std::alloc::Global;

/// The bytes of a file header, and of a record header.
const FILE_HEADER: usize = 24;

const RECORD_HEADER: usize = 16;

/// The link type of Ethernet.
const ETHERNET: u32 = 1;

/// The greatest captured length that is read.
const LONGEST: usize = 65_535;

/// The form of a file, once its header is right.
fn header(file: &[u8]) -> Result<Form, CaptureFault>
    ensures ok { IfOk result (λ form. HasHeader form file.now) }
    ensures err { IfErr result (RefusesHeader file.now) }
{
    if file.len() < FILE_HEADER {
        return Err(CaptureFault::ShortHeader);
    }
    let Some(form) = form_of(u32_at(Order::Little, file, 0)) else {
        return Err(CaptureFault::BadMagic);
    };
    if u16_at(form.order, file, 4) != 2 || u16_at(form.order, file, 6) != 4 {
        return Err(CaptureFault::BadVersion);
    }
    if u32_at(form.order, file, 20) != ETHERNET {
        return Err(CaptureFault::NotEthernet);
    }
    Ok(form)
}

/// The `len` bytes at offset `at`.
fn bytes_at(file: &[u8], at: usize, len: usize) -> &[u8]
    requires { at + len ≤ length file.now }
    ensures { result.now ≡ take len (drop at file.now) }
{
    let (_, rest) = file.split_at(at);
    let (bytes, _) = rest.split_at(len);
    bytes
}

/// The record at offset `at`.
fn record(alloc: Global, form: Form, file: &[u8], at: usize) -> Result<Captured, CaptureFault>
    requires { at < length file.now }
    ensures ok { IfOk result (λ captured. StandsAt form file.now at (record_of captured)) }
    ensures err { IfErr result (StopsAt form file.now at) }
{
    let torn = CaptureFault::TornRecord { at: at as u64 };
    let left = file.len() - at;
    if left < RECORD_HEADER {
        return Err(torn);
    }
    let len = u32_at(form.order, file, at + 8) as usize;
    if len > LONGEST {
        return Err(CaptureFault::TooLong { at: at as u64 });
    }
    if left - RECORD_HEADER < len {
        return Err(torn);
    }
    let seconds = u32_at(form.order, file, at);
    let fraction = u32_at(form.order, file, at + 4);
    let micros = match form.precision {
        Precision::Micros => fraction,
        Precision::Nanos => fraction / 1000,
    };
    let bytes = Vec::from_slice(alloc, bytes_at(file, at + RECORD_HEADER, len))?;
    Ok(Captured {
        seconds,
        micros,
        bytes,
    })
}

/// The records behind the header.
fn records(alloc: Global, form: Form, file: &[u8]) -> Result<Vec<Captured>, CaptureFault>
    requires { 24 ≤ length file.now }
    ensures ok { IfOk result
        (λ list. Run form file.now (records_of list.items) 24 (length file.now)) }
    ensures err { IfErr result (RunStops form file.now) }
{
    let mut list = Vec::new(alloc);
    let mut at = FILE_HEADER;
    while at < file.len() {
        let captured = record(alloc, form, file, at)?;
        at += RECORD_HEADER + captured.bytes.len();
        list.push(captured)?;
    }
    Ok(list)
}

/// What `read_capture` answers.
fn capture(alloc: Global, file: &[u8]) -> Result<Vec<Captured>, CaptureFault>
    ensures { IsAnswer file.now result }
{
    let form = header(file)?;
    records(alloc, form, file)
}

/// The records of a capture, in the order of the file, or the first thing that is wrong with it.
///
/// Numbers may stand in either byte order, and times in microseconds or nanoseconds, which are
/// divided by 1,000. A record that was captured short is its captured bytes.
///
/// # Errors
///
/// The six faults of the bytes come exactly where the clauses say. `NoMemory` comes only behind a
/// right file header.
pub fn read_capture(alloc: Global, file: &[u8]) -> Result<Vec<Captured>, CaptureFault>
    // What is answered, the file holds; what the file holds, is answered unless memory runs out.
    ensures ok { IfOk result (λ list. Holds file.now (records_of list.items)) }
    ensures held { (rs : List Record) → Holds file.now rs
        → MatchResult result (λ list. records_of list.items ≡ rs) (λ fault. fault ≡ NoMemory) }

    // Each answer is the one that the file has, or says that memory ran out.
    ensures answer { IsAnswer file.now result }

    // What is answered can be written again.
    ensures short { IfOk result
        (λ list. All (λ captured. length captured.bytes.items ≤ 65535) list.items) }

    // The faults of the file header come whatever memory there is.
    ensures short_header { (result ≡ Err ShortHeader) ↔ (length file.now < 24) }
    ensures bad_magic { (result ≡ Err BadMagic) ↔ HasBadMagic file.now }
    ensures bad_version { (result ≡ Err BadVersion) ↔ HasBadVersion file.now }
    ensures not_ethernet { (result ≡ Err NotEthernet) ↔ HasOtherLink file.now }

    // The faults of a record, at its offset.
    ensures torn_record { (at : ℕ) → ComesWhere result (TornRecord at) (HasTornRecord file.now at) }
    ensures too_long { (at : ℕ) → ComesWhere result (TooLong at) (HasLongRecord file.now at) }
{
    capture(alloc, file)
}
