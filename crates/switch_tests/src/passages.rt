//! A whole passage in one call, over tables that were filled entry by entry.

ghost use Rattle.p4_tree.specs.View.{program_of};
ghost use Rattle.p4_tables.specs.Programs.{IsStateOf};
ghost use Rattle.p4_machine.specs.Buffers.{IsMadeFor};

use crate::entries::{offer, program, put, same};
use hex::{decode, encode};
use p4_machine::{Digest, FrameBuf, Pass, Passed, Switch};
use p4_slots::SlotSwitch;
use p4_tables::TableState;
use p4_types::TypedProgram;
use sample_programs::BASIC;
use std::alloc::Global;
use std::mem::forget;
use std::process::Abort;

/// Ingress tells `x`, chooses by masks, keeps `x` in a register and counts `y` up by 16; egress adds what
/// the register holds to `y`, and tells it. A frame whose first bit is set is dropped; where the next one
/// is, no case matches, and the header is made anew. Behind `x` = 8 the checksum of `y` is written.
const SMALL: &str =
    "register<bit<8>>(2) r; header e_t { bit<8> x; bit<16> y; bit<16> c; } struct headers_t { e_t e; } \
struct meta_t { bit<8> b; } parser Prs(packet_in p, out headers_t h, inout meta_t m, \
inout standard_metadata_t std) { \
state start { p.extract(h.e); transition select(h.e.x[6:6]) { 0: accept; } } } \
control Ver(inout headers_t h, inout meta_t m) { apply { } } control Ing(inout headers_t h, \
inout meta_t m, inout standard_metadata_t std) { \
action go(bit<8> v) { h.e.x = v; } action stop() { h.e.x = 9; exit; } \
table w { key = { h.e.x: ternary; } actions = { go; stop; NoAction; } } \
apply { std.egress_spec = 2; \
if (std.parser_error == error.NoMatch) { h.e.setInvalid(); h.e.setValid(); } \
digest(3, { h.e.x }); if (h.e.x[7:7] == 1) { mark_to_drop(std); } \
w.apply(); r.write(1, h.e.x); h.e.y = h.e.y + 0x10; } } \
control Egr(inout headers_t h, inout meta_t m, inout standard_metadata_t std) { \
apply { r.read(m.b, 1); h.e.y = h.e.y + (bit<16>) m.b; digest(5, { h.e.y }); } } \
control Com(inout headers_t h, inout meta_t m) { \
apply { update_checksum(h.e.x == 8, { h.e.y }, h.e.c, HashAlgorithm.csum16); } } \
control Dep(packet_out p, in headers_t h) { apply { p.emit(h.e); } } \
V1Switch(Prs(), Ver(), Ing(), Egr(), Com(), Dep()) main;";

/// A table, items that it takes, a frame that comes by port 1, and what leaves: the port, the frame, and
/// each value of a digest behind its receiver.
///
/// An IPv4 packet to 192.168.0.199 by a prefix that is its address: other addresses of Ethernet, a hop
/// less, and a checksum of 0x100 more. Others by the longest of two prefixes, in either order: 10.1.2.3
/// leaves by port 3, 10.2.0.1 by port 2, and 11.0.0.1 is dropped.
const FORWARDED: &str = "\
MyIngress.ipv4_lpm: 32:c0a800c7/32 -> MyIngress.ipv4_forward 48:020000000002 9:2 => \
020000000001020000000009080045000073000040004011b861c0a80001c0a800c7 => \
Out { port: 2 } 020000000002020000000001080045000073000040003f11b961c0a80001c0a800c7;
MyIngress.ipv4_lpm: 32:0a000000/8 -> MyIngress.ipv4_forward 48:020000000002 9:2; \
32:0a010000/16 -> MyIngress.ipv4_forward 48:020000000003 9:3 => \
020000000001020000000009080045000073000040004011b861c0a800010a010203 => \
Out { port: 3 } 020000000003020000000001080045000073000040003f116ecdc0a800010a010203;
MyIngress.ipv4_lpm: 32:0a010000/16 -> MyIngress.ipv4_forward 48:020000000003 9:3; \
32:0a000000/8 -> MyIngress.ipv4_forward 48:020000000002 9:2 => \
020000000001020000000009080045000073000040004011b861c0a800010a010203 => \
Out { port: 3 } 020000000003020000000001080045000073000040003f116ecdc0a800010a010203;
MyIngress.ipv4_lpm: 32:0a010000/16 -> MyIngress.ipv4_forward 48:020000000003 9:3; \
32:0a000000/8 -> MyIngress.ipv4_forward 48:020000000002 9:2 => \
020000000001020000000009080045000073000040004011b861c0a800010a020001 => \
Out { port: 2 } 020000000002020000000001080045000073000040003f1170cec0a800010a020001;
MyIngress.ipv4_lpm: 32:0a010000/16 -> MyIngress.ipv4_forward 48:020000000003 9:3; \
32:0a000000/8 -> MyIngress.ipv4_forward 48:020000000002 9:2 => \
020000000001020000000009080045000073000040004011b861c0a800010b000001 => Dropped ;";

/// Likewise. 0x203 and 16 are 0x213; with 8 that is 0x21b, whose checksum is fde4, and with 7 0x21a. An
/// action that exits leaves `y` and the register as they are; the digest of the ingress stays where it
/// drops; of a frame that is too short for the header all fields read 0; and a header that is made anew
/// holds 0.
const CHOSEN: &str = "\
Ing.w: 8:1&8:3 -> Ing.go 8:7 #1; 8:2&8:3 -> Ing.go 8:8 #2 => 020203aaaa => Out { port: 2 } 08021bfde4; 3:2 5:539
Ing.w: 8:1&8:3 -> Ing.go 8:7 #1; 8:2&8:3 -> Ing.go 8:8 #2 => 010203aaaa => Out { port: 2 } 07021aaaaa; 3:1 5:538
Ing.w: 8:0&8:0 -> Ing.go 8:7 #2; 8:2&8:3 -> Ing.go 8:8 #1 => 020203aaaa => Out { port: 2 } 07021aaaaa; 3:2 5:538
Ing.w: 8:0&8:0 -> Ing.stop => 0400010000ff => Out { port: 2 } 0900010000ff; 3:4 5:1
Ing.w: default Ing.go 8:8 => 010203aaaa => Out { port: 2 } 08021bfde4; 3:1 5:539
Ing.w: 8:1&8:ff -> NoAction => 810203aaaa => Dropped ; 3:129
Ing.w: 8:0&8:0 -> Ing.go 8:5 => 0102 => Out { port: 2 } 0102; 3:0 5:0
Ing.w: 8:0&8:ff -> Ing.go 8:5 => 410203aaaa77 => Out { port: 2 } 050015000077; 3:0 5:21";

/// The tables of a program, one of which takes these items.
fn filled(rt: &impl Abort, alloc: Global, p: &TypedProgram, name: &str, items: &str) -> TableState
    ensures { IsStateOf (program_of p.now) result }
{
    let table = p.table_number(name).expect(rt, "a table");
    let mut state = TableState::new(alloc, p).expect(rt, "tables");
    for item in items.split("; ") {
        assert!(rt; offer(rt, alloc, p, &mut state, table, item).is_ok());
    }
    state
}

/// Puts the words of a digest behind a text, each behind its receiver.
fn put_digest(rt: &impl Abort, alloc: Global, out: &mut String, digest: &Digest) {
    for word in digest.values.as_slice() {
        let (receiver, value) = (digest.receiver, word.value);
        let told = format!(in alloc; " {receiver}:{value}").expect(rt, "memory");
        put(rt, out, &told);
    }
}

/// What a buffer holds behind a passage.
fn shown(rt: &impl Abort, alloc: Global, passed: Passed, buf: &FrameBuf) -> String {
    let frame = encode(alloc, buf.frame()).expect(rt, "memory");
    let mut out = format!(in alloc; "{passed:?} {frame};").expect(rt, "memory");
    for digest in buf.digests() {
        put_digest(rt, alloc, &mut out, digest);
    }
    out
}

/// What leaves a switch, whatever it runs on.
fn passage<P: Pass>(
    rt: &impl Abort,
    alloc: Global,
    switch: &mut P,
    buf: &mut FrameBuf,
    frame: &[u8],
) -> String
    requires { IsMadeFor (P.program switch.old) buf.old.needs }
{
    assert!(rt; frame.len() <= 65_791);
    let passed = switch.pass(alloc, 1, frame, buf).expect(rt, "memory");
    shown(rt, alloc, passed, buf)
}

/// The same of a switch on maps by name.
fn by_names(
    rt: &impl Abort,
    alloc: Global,
    program: TypedProgram,
    tables: TableState,
    frame: &[u8],
) -> String
    requires { IsStateOf (program_of program) tables }
{
    let mut buf = FrameBuf::new(alloc, &program).expect(rt, "a buffer");
    let mut switch = Switch::new(alloc, program, tables).expect(rt, "a switch");
    let out = passage(rt, alloc, &mut switch, &mut buf, frame);
    forget(switch);
    forget(buf);
    out
}

/// The same of a switch over slots.
fn by_slots(
    rt: &impl Abort,
    alloc: Global,
    program: TypedProgram,
    tables: TableState,
    frame: &[u8],
) -> String
    requires { IsStateOf (program_of program) tables }
{
    let mut buf = FrameBuf::new(alloc, &program).expect(rt, "a buffer");
    let mut switch = SlotSwitch::new(alloc, program, tables).expect(rt, "a switch");
    let out = passage(rt, alloc, &mut switch, &mut buf, frame);
    forget(switch);
    forget(buf);
    out
}

/// A line is as it says, on both kinds of switches.
fn line_holds(rt: &impl Abort, alloc: Global, text: &str, line: &str) {
    let (name, rest) = line.split_once(": ").expect(rt, "a table");
    let (items, rest) = rest.split_once(" => ").expect(rt, "a frame");
    let (frame, wanted) = rest.split_once(" => ").expect(rt, "an answer");
    let frame = decode(alloc, frame).expect(rt, "bytes");
    let program = program(rt, alloc, text);
    let other = program.copy(alloc).expect(rt, "memory");
    let tables = filled(rt, alloc, &program, name, items);
    let others = filled(rt, alloc, &other, name, items);
    same(
        rt,
        &by_names(rt, alloc, program, tables, &frame),
        wanted,
        line,
    );
    same(
        rt,
        &by_slots(rt, alloc, other, others, &frame),
        wanted,
        line,
    );
}

fn all_hold(rt: &impl Abort, alloc: Global, text: &str, rows: &str) {
    for line in rows.lines() {
        line_holds(rt, alloc, text, line);
    }
}

#[test]
fn passages(rt: HostRuntime) {
    all_hold(&rt, rt.alloc(), BASIC, FORWARDED);
    all_hold(&rt, rt.alloc(), SMALL, CHOSEN);
}
