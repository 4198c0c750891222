//! How many packets captures have, and how many bytes these carry.

ghost use Rattle.std.specs.Prelude.{◌≡◌, ◌<◌, ◌≤◌, min, map, None, Some, MatchOption};
ghost use Rattle.std.specs.Bool.{OnTrue, OnFalse};
ghost use Rattle.pcap_io.specs.Record.{records_of};
ghost use Rattle.capture_course.specs.Files as files;
ghost use Rattle.capture_course.specs.Views.{lists_of};

use pcap_io::Captured;

/// The greatest number of packets.
const PACKET_LIMIT: u64 = 100_000;

/// The most bytes that packets carry over all switches that they pass.
const VOLUME_LIMIT: u64 = 2_147_483_648;

/// How many packets there are, or the greatest number.
fn packets_in(captures: &[Vec<Captured>]) -> u64
    ensures { result ≡ min (files.packets_in (lists_of captures.now)) 18446744073709551615 }
{
    let mut count: u64 = 0;
    for list in captures {
        count = count.saturating_add(list.len() as u64);
    }
    count
}

/// How many bytes were captured in one file, or the greatest number.
fn bytes_of(list: &[Captured]) -> u64
    ensures { result ≡ min (files.bytes_of (records_of list.now)) 18446744073709551615 }
{
    let mut count: u64 = 0;
    for captured in list {
        count = count.saturating_add(captured.bytes.len() as u64);
    }
    count
}

/// How many bytes were captured in all files, or the greatest number.
fn bytes_in(captures: &[Vec<Captured>]) -> u64
    ensures { result ≡ min (files.bytes_in (lists_of captures.now)) 18446744073709551615 }
{
    let mut count: u64 = 0;
    for list in captures {
        count = count.saturating_add(bytes_of(list));
    }
    count
}

/// Whether there are too many packets.
pub(crate) fn has_many(captures: &[Vec<Captured>]) -> bool
    ensures many { OnTrue result (100000 < files.packets_in (lists_of captures.now)) }
    ensures few { OnFalse result (files.packets_in (lists_of captures.now) ≤ 100000) }
{
    packets_in(captures) > PACKET_LIMIT
}

/// Whether too many bytes are carried, where there are not too many packets.
pub(crate) fn has_volume(captures: &[Vec<Captured>], room: u16, hops: u8) -> bool
    requires { files.packets_in (lists_of captures.now) ≤ 100000 }
    ensures large { OnTrue result (2147483648 < files.volume_of room hops (lists_of captures.now)) }
    ensures small { OnFalse result (files.volume_of room hops (lists_of captures.now) ≤ 2147483648) }
{
    let headers = packets_in(captures) * (u64::from(room) + 16);
    let once = bytes_in(captures).saturating_add(headers);
    once.saturating_mul(u64::from(hops)) > VOLUME_LIMIT
}
