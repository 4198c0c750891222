//! Checksums of bytes: that of a header of IPv4 with its checksum zero, and with it; and the example of
//! RFC 1071, section 3.

use crate::entries::holds;
use hex::decode;
use p4_values::csum16;
use std::alloc::Global;
use std::process::Abort;

const SUMS: &str = "\
450000730000400040110000c0a80001c0a800c7 => b861
45000073000040004011b861c0a80001c0a800c7 => 0000
0001f203f4f5f6f7 => 220d
 => ffff
ffff => 0000
0000 => ffff";

/// A line is as it says.
fn line_holds(rt: &impl Abort, alloc: Global, line: &str) {
    let (digits, wanted) = line.split_once(" => ").expect(rt, "a sum");
    let sum = csum16(&decode(alloc, digits).expect(rt, "bytes"));
    let wanted = u16::from_str_radix(wanted, 16).expect(rt, "a number");
    holds(rt, sum == wanted, line);
}

#[test]
fn sums(rt: HostRuntime) {
    for line in SUMS.lines() {
        line_holds(&rt, rt.alloc(), line);
    }
}
