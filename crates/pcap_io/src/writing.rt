//! Writing a capture.

ghost use Rattle.std.specs.Prelude.{◌≡◌, ◌<◌, ◌≤◌, ◌^◌, ◌++◌, length, All, OnOk, IfOk};
ghost use Rattle.byteorder.specs.Endian.{little_bytes};
ghost use Rattle.pcap_io.specs.Record.{record_of, records_of};
ghost use Rattle.pcap_io.specs.Holds.{Holds};
ghost use Rattle.pcap_io.specs.Written.{header_bytes, record_bytes, capture_bytes};
ghost use Rattle.pcap_io.specs.Answer.{IsInRange};

use crate::captured::Captured;
use byteorder::{ByteOrder, LittleEndian};
use std::alloc::{AllocError, Global};

/// The magic number of a capture whose times are in microseconds.
const MAGIC: u32 = 0xa1b2c3d4;

/// The snapshot length that is written: more than any frame here has.
const SNAPLEN: u32 = 262_144;

/// The link type of Ethernet.
const ETHERNET: u32 = 1;

fn put_u16(out: &mut Vec<u8>, number: u16) -> Result<(), AllocError>
    ensures { OnOk result (out.new.items ≡ out.old.items ++ little_bytes 2 number) }
{
    let mut bytes = [0; 2];
    LittleEndian::write_u16(&mut bytes, number);
    out.extend_from_slice(&bytes)?;
    Ok(())
}

fn put_u32(out: &mut Vec<u8>, number: u32) -> Result<(), AllocError>
    ensures { OnOk result (out.new.items ≡ out.old.items ++ little_bytes 4 number) }
{
    let mut bytes = [0; 4];
    LittleEndian::write_u32(&mut bytes, number);
    out.extend_from_slice(&bytes)?;
    Ok(())
}

/// Begins a capture: its file header, behind what is written already.
///
/// # Errors
///
/// `AllocError` where memory runs out.
pub fn put_header(out: &mut Vec<u8>) -> Result<(), AllocError>
    ensures { OnOk result (out.new.items ≡ out.old.items ++ header_bytes) }
{
    put_u32(out, MAGIC)?;
    put_u16(out, 2)?;
    put_u16(out, 4)?;
    put_u32(out, 0)?;
    put_u32(out, 0)?;
    put_u32(out, SNAPLEN)?;
    put_u32(out, ETHERNET)?;
    Ok(())
}

/// A record goes behind what is written already: its time in whole seconds and the microseconds past
/// them, the captured length, the original length, which is the same, and the captured bytes.
///
/// # Errors
///
/// `AllocError` where memory runs out.
pub fn put_record(
    out: &mut Vec<u8>,
    seconds: u32,
    micros: u32,
    bytes: &[u8],
) -> Result<(), AllocError>
    requires { length bytes.now < 2 ^ 32 }
    ensures bytes { OnOk result (out.new.items ≡ out.old.items
        ++ record_bytes (record { seconds = seconds; micros = micros; bytes = bytes.now })) }
    ensures in_range { OnOk result (IsInRange (record { seconds = seconds; micros = micros; bytes = bytes.now })) }
{
    let len = bytes.len() as u32;
    put_u32(out, seconds)?;
    put_u32(out, micros)?;
    put_u32(out, len)?;
    put_u32(out, len)?;
    out.extend_from_slice(bytes)?;
    Ok(())
}

/// Writes a captured frame as a record.
fn put_captured(out: &mut Vec<u8>, captured: &Captured) -> Result<(), AllocError>
    requires { length captured.now.bytes.items < 2 ^ 32 }
    ensures bytes { OnOk result
        (out.new.items ≡ out.old.items ++ record_bytes (record_of captured.now)) }
    ensures in_range { OnOk result (IsInRange (record_of captured.now)) }
{
    let bytes = captured.bytes.as_slice();
    put_record(out, captured.seconds, captured.micros, bytes)
}

fn written(alloc: Global, list: &[Captured]) -> Result<Vec<u8>, AllocError>
    requires { All (λ captured. length captured.bytes.items < 2 ^ 32) list.now }
    ensures bytes { IfOk result (λ file. file.items ≡ capture_bytes (records_of list.now)) }
    ensures in_range { OnOk result (All (λ captured. IsInRange (record_of captured)) list.now) }
{
    let mut out = Vec::new(alloc);
    put_header(&mut out)?;
    for captured in list {
        put_captured(&mut out, captured)?;
    }
    Ok(out)
}

/// The capture of the records: little-endian, in microseconds, version 2.4, zone and accuracy 0,
/// snapshot length 262,144, link type 1, and original lengths equal to captured lengths.
///
/// A record of more than 65,535 bytes is written too, and `read_capture` refuses it.
///
/// # Errors
///
/// `AllocError` alone, where memory runs out.
pub fn write_capture(alloc: Global, list: &[Captured]) -> Result<Vec<u8>, AllocError>
    requires { All (λ captured. length captured.bytes.items < 2 ^ 32) list.now }
    ensures bytes { IfOk result (λ file. file.items ≡ capture_bytes (records_of list.now)) }

    // What is written holds the records, so that `read_capture` gives them back.
    ensures held { All (λ captured. length captured.bytes.items ≤ 65535) list.now
        → IfOk result (λ file. Holds file.items (records_of list.now)) }
{
    written(alloc, list)
}
