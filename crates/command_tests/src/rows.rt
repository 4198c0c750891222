//! Commands over the stores and sinks in memory, and what they answer where files or the sink fail. What commands do over the
//! system's files stands in the rows under `tests/` at the top of the repository.

use commands::hydra;
use hex::decode;
use job_course::Status;
use outside::{MemSink, MemStore, SureSink, SureStore};
use p4_slots::SlotBench;
use simplify_rules::RuleSet;
use std::alloc::Global;
use std::mem::forget;
use std::process::Abort;
use switch_benches::StoppingBench;

/// Parts of rows, by their names: networks, programs, cases, and properties.
const PARTS: &str = r#"one =n {"switches": ["s1"], "links": []}
line2 =n {"switches": ["s1", "s2"], "links": [["s1", 2, "s2", 1]]}
line3 =n {"switches": ["s1", "s2", "s3"], "links": [["s1", 2, "s2", 1], ["s2", 2, "s3", 1]]}
ring2 =n {"switches": ["s1", "s2"], "links": [["s1", 2, "s2", 1], ["s2", 2, "s1", 3]]}
two $f standard_metadata.egress_spec = 2;|
wire $f if (standard_metadata.ingress_port == 1) { standard_metadata.egress_spec = 2; } else { standard_metadata.egress_spec = 1; }|
short $f if (standard_metadata.ingress_port == 1) { standard_metadata.egress_spec = 2; } else { standard_metadata.egress_spec = 1; } if (standard_metadata.packet_length > 100) { mark_to_drop(standard_metadata); }|
case %c
frame ~h.pcap 0102
plain =p tele bit<8> tenant; tele bit<9>[4] ports; tele bool seen; {} {} {}
counts =p sensor bit<8> seen; tele bit<8> mine; {} {seen = seen + 1; mine = seen;} {report(mine);}
leaves =p tele bit<8> n; {} {n = n + 1;} {if (n == 2) {reject;}} @ #f 0102
rejected =p tele bit<8> n; {} {n = n + 1;} {if (n == 3) {reject;}} @ #f 0102
passes %c , "control": "k", "schedule": "e" @ =k {} @ =e [] @ ~h.pcap 0102 @ =p {} {} {} @ $f standard_metadata.egress_spec = 2;| @ =n {"switches": ["s1", "s2"], "links": [["s1", 2, "s2", 1]]}
goes =c {"captures": [{"switch": "s1", "port": 1, "file": "h.pcap"}], "network": "n", "program": "f", "entries": "t", "schedule": "e"} @ =t {} @ =e [] @ ~h.pcap 0102 @ $f standard_metadata.egress_spec = 2;| @ =n {"switches": ["s1"], "links": []}"#;

/// A row is words, and behind ` @ ` each what is given, what fails, what is answered and what is written. Of files are given a
/// text `=NAME TEXT`, bytes `#NAME HEX`, a capture of frames `~NAME HEX,HEX` or of a frame of so many bytes 0 `~NAME *COUNT`,
/// a program `$NAME INGRESS|EGRESS`, and a case `%NAME MEMBERS`. `&NAME` stands for parts with a name. `!N` and `?N` are the
/// numbers of the calls of the store and of the sink that fail. `>` is the status and what was put, with `/` for each line
/// feed and `\` for each `/`. Behind `:` is a file that is written: as files are given, or `/NAME TEXT`, likewise, or `?NAME`
/// whatever it holds; and `!NAME` is not written. `^N K` is the number of a switch and of its entry that answers want of
/// memory, and `;N NAME` says that the program of that switch is the one whose text the file holds. `+NAME TEXT` says that the
/// text stands in a file that is written.
const ROWS: &str = r#" @ >BadWords hydra: words/
wire p f o @ &rejected @ >Done packets 1/sent 0/dropped 0/rejected 1/lost 0/reports 0/ @ :?o.linked.s1.p4 @ :?o.linked.s2.p4 @ :?o.linked.s3.p4 @ :!o.frame
wire p f o @ &leaves @ >Done packets 1/sent 1/dropped 0/rejected 0/lost 0/reports 0/ @ :#o.frame 0102
wire p f o @ &leaves @ #f 480502 @ >Done packets 1/sent 1/dropped 0/rejected 0/lost 0/reports 0/ @ :#o.frame 480502
check p @ &plain @ >Done ok bytes 8 weight 0/
check p @ &rejected @ >Done ok bytes 2 weight 9/
run c o @ %c , "room": 8 @ &one @ &two @ &frame @ &plain @ >Done packets 1/sent 1/dropped 0/rejected 0/lost 0/reports 0/ @ :/o.reports.txt
run c o @ %c , "room": 7 @ &one @ &two @ &frame @ &plain @ >NotLinked hydra: link RoomShort 8 7/ @ :!o.summary.txt
wire p f o @ =p tele bit<9>[2] l; {} {l.push((bit<9>) switch_id);} {report(length(l), 2 in l, 1 in l);} @ #f 0102 @ >Done 0 s3 0 2 0 1/packets 1/sent 1/dropped 0/rejected 0/lost 0/reports 1/
run c o @ &case @ &one @ &two @ &frame @ =p sensor bit<8> s = 250; {} {s = s + 3;} {} @ >Done packets 1/sent 1/dropped 0/rejected 0/lost 0/reports 0/ @ :/o.registers.txt s1 hydra_s_s 0 7/
run c o @ &case @ &one @ &two @ ~h.pcap 0102,0102 @ =p sensor bit<8> s = 250; {} {s = s + 3;} {} @ >Done packets 2/sent 2/dropped 0/rejected 0/lost 0/reports 0/ @ :/o.registers.txt s1 hydra_s_s 0 250/
run c o @ &case @ &line2 @ &wire @ ~h.pcap 0102,0102 @ &counts @ >Done packets 2/sent 2/dropped 0/rejected 0/lost 0/reports 2/ @ :/o.reports.txt 0 s2 0 1/1 s2 0 2/
run c o @ %c , "schedule": "e" @ =e [0, 1, 1] @ &line2 @ &wire @ ~h.pcap 0102,0102 @ &counts @ >Done packets 2/sent 2/dropped 0/rejected 0/lost 0/reports 2/ @ :/o.reports.txt 1 s2 0 1/0 s2 0 2/
run c o @ &case @ &line3 @ &short @ ~h.pcap *100 @ &plain @ >Done packets 1/sent 1/dropped 0/rejected 0/lost 0/reports 0/ @ :~o.out.s3.2.pcap *100
run c o @ &case @ &line3 @ &short @ ~h.pcap *101 @ &plain @ >Done packets 1/sent 0/dropped 1/rejected 0/lost 0/reports 0/ @ :!o.out.s3.2.pcap
run c o @ &case @ &line2 @ $f standard_metadata.egress_spec = 2;|exit; @ &frame @ =p {} {} {reject;} @ >Done packets 1/sent 0/dropped 0/rejected 1/lost 0/reports 0/ @ :/o.registers.txt s2 hydra_rejects 0 1/
run c o @ &case @ &one @ $f standard_metadata.egress_spec = 2;|mark_to_drop(standard_metadata); @ &frame @ =p {} {} {report(); reject;} @ >Done packets 1/sent 0/dropped 1/rejected 0/lost 0/reports 0/ @ :/o.reports.txt
run c o @ &case @ &line2 @ &wire @ ~h.pcap *65535 @ &plain @ >Done packets 1/sent 1/dropped 0/rejected 0/lost 0/reports 0/ @ :~o.out.s2.2.pcap *65535
run c o @ %c , "hops": 64 @ &ring2 @ &two @ &frame @ =p sensor bit<8> c; {} {c = c + 1;} {report();} @ >Done packets 1/sent 0/dropped 0/rejected 0/lost 1/reports 0/ @ :/o.registers.txt s1 hydra_s_c 0 32/s2 hydra_s_c 0 32/
run c o @ %c , "control": "k", "schedule": "e" @ =k {"s2": {"tenants": [[1, 5], [2, 5]]}} @ =e [0, {"set": {"switch": "s2", "variable": "tenants", "value": [[1, 7], [2, 8]]}}] @ &line2 @ &wire @ &frame @ =p control dict<bit<9>, bit<8>> tenants; header bit<9> i = standard_metadata.ingress_port; header bit<9> o = standard_metadata.egress_port; {} {} {report(tenants[o], tenants[i]);} @ >Done packets 1/sent 1/dropped 0/rejected 0/lost 0/reports 1/ @ :/o.reports.txt 0 s2 0 8 7/ @ :/o.tables.txt E.hydra_t_0 tenants/E.hydra_t_1 tenants/
run c o @ &case @ &one @ &two @ &frame @ =p tele bit<1>[255] a; tele bit<8> n; {} {for (x in a) {for (y in a) {n = n + 1;}}} {} @ >NotLinked hydra: link TooLarge 325636/ @ :!o.summary.txt
run c o @ &case @ &line2 @ &wire @ ~h.pcap 0102,0102 @ &counts @ ^1 0 @ >NoMemory hydra: memory/ @ :!o.linked.s1.p4 @ :!o.linked.s2.p4 @ :!o.tables.txt @ :!o.wire.s1.2.pcap @ :!o.reports.txt @ :!o.summary.txt
run c o @ &case @ &line2 @ &wire @ ~h.pcap 0102,0102 @ &counts @ ^1 1 @ >NoMemory hydra: memory/ @ :!o.linked.s1.p4 @ :!o.linked.s2.p4 @ :!o.tables.txt @ :!o.wire.s1.2.pcap @ :!o.reports.txt @ :!o.summary.txt
run c o @ &case @ &line2 @ &wire @ ~h.pcap 0102,0102 @ &counts @ ^1 2 @ >Done packets 2/sent 2/dropped 0/rejected 0/lost 0/reports 2/ @ :/o.reports.txt 0 s2 0 1/1 s2 0 2/ @ ;0 o.linked.s1.p4 @ ;1 o.linked.s2.p4
wire p f o @ &leaves @ ^1 0 @ >NoMemory hydra: memory/ @ :!o.linked.s1.p4 @ :!o.frame
wire p f o @ &leaves @ ^1 1 @ >Done packets 1/sent 1/dropped 0/rejected 0/lost 0/reports 0/ @ :#o.frame 0102 @ ;0 o.linked.s1.p4 @ ;1 o.linked.s2.p4 @ ;2 o.linked.s3.p4
forward c o @ &goes @ ^0 0 @ >NoMemory hydra: memory/ @ :!o.out.s1.2.pcap @ :!o.summary.txt
check p @ =p tele bit<8> n {} @ >BadProperty hydra: property p Syntax 6/
check p @ =p tele bit<8> @ >BadProperty hydra: property p Syntax 5/
check p @ =p tele bit<8> n; {m = 1;} {} {} @ >BadProperty hydra: property p Type 8 NoSuchName/
run c o @ &case @ &one @ =f header_union @ &frame @ &plain @ >BadProgram hydra: program f LeftOut 0 header_union/
run c o @ &case @ &one @ $f bit<8> hydra_x = 0; standard_metadata.egress_spec = 2;| @ &frame @ =p {} {} {} @ >NotLinked hydra: link NameTaken hydra_x/ @ :!o.summary.txt
run c o @ &case @ &one @ &two @ &frame @ =p header bit<16> d = hdr.tcp.dport; {} {} {} @ >NotLinked hydra: link NoSuchField hdr.tcp.dport/ @ :!o.summary.txt
run c o @ %c , "control": "k" @ =k {"s2": {"tenants": [[1, 5], [1, 6]]}} @ &line2 @ &wire @ &frame @ =p control dict<bit<9>, bit<8>> tenants; {} {} {report(tenants[1]);} @ >BadNetwork hydra: network k KeyTwice \s2\tenants\1/ @ :!o.summary.txt
wire p f o @ &leaves @ !3 @ >WriteFault hydra: write o.linked.s2.p4/ @ :?o.linked.s1.p4 @ :!o.linked.s2.p4 @ :!o.linked.s3.p4 @ :!o.frame
wire q f o @ #f 0102 @ >ReadFault hydra: read q/
wire p f o @ &leaves @ !0 @ >ReadFault hydra: read p/
wire p f o @ &leaves @ !1 @ >ReadFault hydra: read f/ @ :!o.linked.s1.p4
wire p f o @ &leaves @ !2 @ >WriteFault hydra: write o.linked.s1.p4/ @ :!o.linked.s1.p4 @ :!o.frame
wire p f o @ &leaves @ !4 @ >WriteFault hydra: write o.linked.s3.p4/ @ :?o.linked.s2.p4 @ :!o.linked.s3.p4 @ :!o.frame
wire p f o @ &leaves @ !5 @ >WriteFault hydra: write o.frame/ @ :?o.linked.s3.p4 @ :!o.frame
wire p f o @ &leaves @ ?0 @ >WriteFault hydra: write -/ @ :#o.frame 0102
check p @ &plain @ ?0 @ >WriteFault hydra: write -/
wire @ ?0 @ >BadWords
wire q f o @ ?0 @ >ReadFault
wire q f o @ ?1 @ >ReadFault hydra: read q/
run c o @ &passes @ !0 @ >ReadFault hydra: read c/
run c o @ &passes @ !1 @ >ReadFault hydra: read p/
run c o @ &passes @ !2 @ >ReadFault hydra: read f/
run c o @ &passes @ !3 @ >ReadFault hydra: read n/
run c o @ &passes @ !4 @ >ReadFault hydra: read k/
run c o @ &passes @ !5 @ >ReadFault hydra: read h.pcap/
run c o @ &passes @ !6 @ >ReadFault hydra: read e/ @ :!o.linked.s1.p4
run c o @ &passes @ !7 @ >WriteFault hydra: write o.linked.s1.p4/ @ :!o.linked.s1.p4
run c o @ &passes @ !8 @ >WriteFault hydra: write o.linked.s2.p4/ @ :?o.linked.s1.p4 @ :!o.linked.s2.p4
run c o @ &passes @ !9 @ >WriteFault hydra: write o.tables.txt/ @ :?o.linked.s2.p4 @ :!o.tables.txt
run c o @ &passes @ !10 @ >WriteFault hydra: write o.wire.s1.2.pcap/ @ :/o.tables.txt @ :!o.wire.s1.2.pcap
run c o @ &passes @ !11 @ >WriteFault hydra: write o.out.s2.2.pcap/ @ :~o.wire.s1.2.pcap 480102 @ :!o.out.s2.2.pcap
run c o @ &passes @ !12 @ >WriteFault hydra: write o.reports.txt/ @ :~o.out.s2.2.pcap 0102 @ :!o.reports.txt
run c o @ &passes @ !13 @ >WriteFault hydra: write o.digests.txt/ @ :/o.reports.txt @ :!o.digests.txt
run c o @ &passes @ !14 @ >WriteFault hydra: write o.registers.txt/ @ :/o.digests.txt @ :!o.registers.txt
run c o @ &passes @ !15 @ >WriteFault hydra: write o.summary.txt/ @ :/o.registers.txt @ :!o.summary.txt
run c o @ &passes @ ?0 @ >WriteFault hydra: write -/ @ :/o.summary.txt packets 1/sent 1/dropped 0/rejected 0/lost 0/reports 0/
forward c o @ &goes @ >Done packets 1/sent 1/dropped 0/rejected 0/lost 0/reports 0/ @ :~o.out.s1.2.pcap 0102 @ :/o.digests.txt @ :/o.registers.txt @ :/o.summary.txt packets 1/sent 1/dropped 0/rejected 0/lost 0/reports 0/
forward c o @ &goes @ !0 @ >ReadFault hydra: read c/
forward c o @ &goes @ !1 @ >ReadFault hydra: read f/
forward c o @ &goes @ !2 @ >ReadFault hydra: read n/
forward c o @ &goes @ !3 @ >ReadFault hydra: read t/
forward c o @ &goes @ !4 @ >ReadFault hydra: read h.pcap/
forward c o @ &goes @ !5 @ >ReadFault hydra: read e/
forward c o @ &goes @ !6 @ >WriteFault hydra: write o.out.s1.2.pcap/ @ :!o.out.s1.2.pcap
forward c o @ &goes @ !7 @ >WriteFault hydra: write o.digests.txt/ @ :~o.out.s1.2.pcap 0102 @ :!o.digests.txt
forward c o @ &goes @ !8 @ >WriteFault hydra: write o.registers.txt/ @ :/o.digests.txt @ :!o.registers.txt
forward c o @ &goes @ !9 @ >WriteFault hydra: write o.summary.txt/ @ :/o.registers.txt @ :!o.summary.txt
forward c o @ &goes @ ?0 @ >WriteFault hydra: write -/ @ :?o.summary.txt"#;

/// A program without headers, before what its ingress does, and before what its egress does.
const FRONT: &str = "\
struct metadata { }
struct headers { }
parser P(packet_in packet, out headers hdr, inout metadata meta,
  inout standard_metadata_t standard_metadata) { state start { transition accept; } }
control V(inout headers hdr, inout metadata meta) { apply { } }
control I(inout headers hdr, inout metadata meta, inout standard_metadata_t standard_metadata) {
  apply { ";

const MIDDLE: &str = " } }
control E(inout headers hdr, inout metadata meta,
  inout standard_metadata_t standard_metadata) { apply { ";

const BACK: &str = " } }
control K(inout headers hdr, inout metadata meta) { apply { } }
control D(packet_out packet, in headers hdr) { apply { } }
V1Switch(P(), V(), I(), E(), K(), D()) main;";

/// What each case of `run` names.
const CASE: &str =
    r#""captures": [{"switch": "s1", "port": 1, "file": "h.pcap"}], "network": "n", "program": "f", "property": "p""#;

/// The head of a capture, and behind the time of a frame, 1 second and 5 microseconds, its length twice.
const HEAD: &[u8] = b"\xd4\xc3\xb2\xa1\x02\0\x04\0\0\0\0\0\0\0\0\0\0\0\x04\0\x01\0\0\0";

const TIME: &[u8] = b"\x01\0\0\0\x05\0\0\0";

// ---- files

/// Puts bytes behind others.
fn put_all(rt: &impl Abort, bytes: &mut Vec<u8>, more: &[u8]) {
    bytes.extend_from_slice(more).expect(rt, "memory");
}

/// The bytes of hexadecimal digits, or so many bytes 0 behind `*`.
fn hexadecimal(rt: &impl Abort, alloc: Global, text: &str) -> Vec<u8> {
    match text.strip_prefix("*") {
        Some(count) => {
            let mut bytes = Vec::new(alloc);
            let count = count.parse().expect(rt, "a count");
            bytes.resize(count, 0).expect(rt, "memory");
            bytes
        }
        None => decode(alloc, text).expect(rt, "hexadecimal digits"),
    }
}

/// A capture of frames, each with its time and its lengths.
fn put_capture(rt: &impl Abort, alloc: Global, bytes: &mut Vec<u8>, frames: &str) {
    put_all(rt, bytes, HEAD);
    for text in frames.split(',') {
        let frame = hexadecimal(rt, alloc, text);
        let length = u32::try_from(frame.len())
            .expect(rt, "a length")
            .to_le_bytes();
        put_all(rt, bytes, TIME);
        put_all(rt, bytes, &length);
        put_all(rt, bytes, &length);
        put_all(rt, bytes, frame.as_slice());
    }
}

/// A text with a line feed for each `/`, and a `/` for each `\`.
fn lines_of(rt: &impl Abort, alloc: Global, text: &str) -> String {
    String::from_str(alloc, text)
        .expect(rt, "memory")
        .replace(alloc, "/", "\n")
        .expect(rt, "memory")
        .replace(alloc, "\\", "/")
        .expect(rt, "memory")
}

fn put_texts(rt: &impl Abort, bytes: &mut Vec<u8>, texts: &[&str]) {
    for text in texts {
        put_all(rt, bytes, text.as_bytes());
    }
}

/// What a file of a kind holds.
fn bytes_of(rt: &impl Abort, alloc: Global, kind: u8, value: &str) -> Vec<u8> {
    let mut bytes = Vec::new(alloc);
    match kind {
        b'#' => put_all(rt, &mut bytes, hexadecimal(rt, alloc, value).as_slice()),
        b'~' => put_capture(rt, alloc, &mut bytes, value),
        b'/' => put_all(rt, &mut bytes, lines_of(rt, alloc, value).as_bytes()),
        b'$' => {
            let (ingress, egress) = value.split_once('|').unwrap_or((value, ""));
            put_texts(rt, &mut bytes, &[FRONT, ingress, MIDDLE, egress, BACK])
        }
        b'%' => put_texts(rt, &mut bytes, &["{", CASE, value, "}"]),
        _ => put_all(rt, &mut bytes, value.as_bytes()),
    }
    bytes
}

/// The kind of a part, the name of a file, and what it holds.
fn file_of<'a>(part: &'a str) -> Option<(u8, &'a str, &'a str)> {
    let kind = *part.as_bytes().first()?;
    let rest = part.get(1..)?;
    let (name, value) = rest.split_once(' ').unwrap_or((rest, ""));
    Some((kind, name, value))
}

// ---- rows

/// The line of a table behind a name.
fn named<'a>(table: &'a str, name: &str) -> &'a str {
    for line in table.lines() {
        if let Some((known, text)) = line.split_once(' ') {
            if known == name {
                return text;
            }
        }
    }
    ""
}

/// A row with the parts for which names stand.
pub fn whole(rt: &impl Abort, alloc: Global, row: &str) -> String {
    let mut text = String::new(alloc);
    for (at, part) in row.split(" @ ").enumerate() {
        if at > 0 {
            text.push_str(" @ ").expect(rt, "memory");
        }
        let part = match part.strip_prefix("&") {
            Some(name) => named(PARTS, name),
            None => part,
        };
        text.push_str(part).expect(rt, "memory");
    }
    text
}

fn words_of(rt: &impl Abort, alloc: Global, line: &str) -> Vec<String> {
    let mut words = Vec::new(alloc);
    for word in line.split(' ') {
        if !word.is_empty() {
            let word = String::from_str(alloc, word).expect(rt, "memory");
            words.push(word).expect(rt, "memory");
        }
    }
    words
}

/// The numbers of the calls that fail.
fn failing(rt: &impl Abort, alloc: Global, row: &str, mark: &str) -> Vec<u64> {
    let mut calls = Vec::new(alloc);
    for part in row.split(" @ ") {
        if let Some(number) = part.strip_prefix(mark) {
            calls.push(number.parse().unwrap_or(0)).expect(rt, "memory");
        }
    }
    calls
}

/// Holds the file of a part, where it is one that is given.
fn hold(rt: &impl Abort, alloc: Global, store: &mut MemStore, part: &str) {
    if let Some((kind, name, value)) = file_of(part) {
        if matches!(kind, b'=' | b'#' | b'~' | b'$' | b'%') {
            let bytes = bytes_of(rt, alloc, kind, value);
            store.hold(alloc, name, &bytes).expect(rt, "memory");
        }
    }
}

/// The store of a row.
fn held(rt: &impl Abort, alloc: Global, row: &str) -> MemStore {
    let mut store = MemStore::new(alloc, failing(rt, alloc, row, "!"));
    for part in row.split(" @ ") {
        hold(rt, alloc, &mut store, part);
    }
    store
}

/// The name of a status.
fn name_of(status: Status) -> &'static str {
    match status {
        Status::Done => "Done",
        Status::BadWords => "BadWords",
        Status::ReadFault => "ReadFault",
        Status::BadProperty => "BadProperty",
        Status::NotLinked => "NotLinked",
        Status::BadProgram => "BadProgram",
        Status::BadNetwork => "BadNetwork",
        Status::BadCapture => "BadCapture",
        Status::WriteFault => "WriteFault",
        Status::NoMemory => "NoMemory",
    }
}

/// Whether this is the status, and behind a blank what was put, if anything.
fn is_answer(rt: &impl Abort, alloc: Global, status: Status, taken: &[u8], wanted: &str) -> bool {
    let (name, text) = wanted.split_once(' ').unwrap_or((wanted, ""));
    name == name_of(status) && taken == lines_of(rt, alloc, text).as_bytes()
}

/// Whether a file of the store is as a row says.
fn is_written(rt: &impl Abort, alloc: Global, store: &MemStore, wanted: &str) -> bool {
    let Some((kind, name, value)) = file_of(wanted) else {
        return false;
    };
    match store.file(name) {
        None => kind == b'!',
        Some(bytes) => match kind {
            b'!' => false,
            b'?' => true,
            _ => bytes == bytes_of(rt, alloc, kind, value).as_slice(),
        },
    }
}

/// The two numbers of a text, 0 where one is missing.
fn two_numbers(text: &str) -> (usize, u32) {
    let (first, second) = text.split_once(' ').unwrap_or((text, ""));
    (first.parse().unwrap_or(0), second.parse().unwrap_or(0))
}

/// The switch and its entry that answers want of memory, if a row has one.
fn stop_of(row: &str) -> Option<(usize, u32)> {
    for part in row.split(" @ ") {
        if let Some(numbers) = part.strip_prefix("^") {
            return Some(two_numbers(numbers));
        }
    }
    None
}

/// Whether the bench was handed, at a number, the program of which a file of the store holds the text.
fn is_built(store: &MemStore, bench: &StoppingBench, wanted: &str) -> bool {
    let (number, name) = wanted.split_once(' ').unwrap_or((wanted, ""));
    let number = number.parse::<usize>().unwrap_or(0);
    match (bench.texts.get(number), store.file(name)) {
        (Some(text), Some(bytes)) => text.as_bytes() == bytes,
        _ => false,
    }
}

/// Whether a text stands in the file of a name.
fn has_text(store: &MemStore, wanted: &str) -> bool {
    let (name, text) = wanted.split_once(' ').unwrap_or((wanted, ""));
    let text = text.as_bytes();
    match store.file(name) {
        None => false,
        Some(bytes) => !text.is_empty() && bytes.windows(text.len()).any(|part| part == text),
    }
}

/// What stands behind a call.
#[derive(Clone, Copy)]
struct Behind<'a> {
    status: Status,
    taken: &'a [u8],
    store: &'a MemStore,
    bench: &'a StoppingBench,
}

/// Whether a part of a row holds behind the call.
fn holds(rt: &impl Abort, alloc: Global, part: &str, behind: &Behind<'_>) -> bool {
    if let Some(wanted) = part.strip_prefix(">") {
        is_answer(rt, alloc, behind.status, behind.taken, wanted)
    } else if let Some(wanted) = part.strip_prefix(":") {
        is_written(rt, alloc, behind.store, wanted)
    } else if let Some(wanted) = part.strip_prefix(";") {
        is_built(behind.store, behind.bench, wanted)
    } else if let Some(wanted) = part.strip_prefix("+") {
        has_text(behind.store, wanted)
    } else {
        true
    }
}

/// The first part of a row that does not hold behind the call.
fn first_wrong<'a>(rt: &impl Abort, alloc: Global, row: &'a str, behind: &Behind<'_>) -> &'a str {
    for part in row.split(" @ ") {
        if !holds(rt, alloc, part, behind) {
            return part;
        }
    }
    ""
}

/// Does what the words of a row say, with the switches of a bench of which one may stop: the first part of the row that does
/// not hold then.
pub fn wrong<'a>(rt: &impl Abort, alloc: Global, row: &'a str, rules: &RuleSet) -> &'a str {
    let (line, _) = row.split_once(" @ ").unwrap_or((row, ""));
    let words = words_of(rt, alloc, line);
    let mut store = held(rt, alloc, row);
    let mut out = MemSink::new(alloc, 1000, failing(rt, alloc, row, "?")).expect(rt, "memory");
    let mut bench = StoppingBench {
        texts: Vec::new(alloc),
        stop: stop_of(row),
    };
    let status = hydra(alloc, &words, &mut store, &mut out, &mut bench, rules);
    let behind = Behind {
        status,
        taken: out.taken(),
        store: &store,
        bench: &bench,
    };
    let first = first_wrong(rt, alloc, row, &behind);
    forget(words);
    forget(store);
    forget(out);
    forget(bench);
    first
}

#[test]
fn rows_are_answered(rt: HostRuntime) {
    let alloc = rt.alloc();
    let rules = RuleSet::new(alloc);
    for row in ROWS.lines() {
        let row = whole(&rt, alloc, row);
        let part = wrong(&rt, alloc, row.as_str(), &rules);
        assert_eq!(rt; part, "", "{row}");
    }
}

// ---- switches over slots, and stores and sinks without faults

/// Whether `wire` answers so, and whether the frame leaves, over slots and the kinds that have no faults.
fn surely(rt: &impl Abort, alloc: Global, property: &str, frame: &[u8], wanted: &str) -> bool {
    let mut store = SureStore::new(alloc);
    store
        .hold(alloc, "p", property.as_bytes())
        .expect(rt, "memory");
    store.hold(alloc, "f", frame).expect(rt, "memory");
    let mut out = SureSink::new(alloc, 1000).expect(rt, "memory");
    let words = words_of(rt, alloc, "wire p f o");
    let rules = RuleSet::new(alloc);
    let status = hydra(alloc, &words, &mut store, &mut out, &mut SlotBench, &rules);
    let left = if wanted.contains("/sent 1/") {
        Some(frame)
    } else {
        None
    };
    let well = is_answer(rt, alloc, status, out.taken(), wanted) && store.file("o.frame") == left;
    forget(rules);
    forget(store);
    forget(out);
    forget(words);
    well
}

#[test]
fn frames_leave_as_they_came(rt: HostRuntime) {
    let alloc = rt.alloc();
    let frames: [&[u8]; 3] = [&[1, 2], &[], &[0x48, 5, 2]];
    let leaves = "tele bit<8> n; {} {n = n + 1;} {if (n == 2) {reject;}}";
    let sent = "Done packets 1/sent 1/dropped 0/rejected 0/lost 0/reports 0/";
    for frame in frames {
        assert!(rt; surely(&rt, alloc, leaves, frame, sent));
    }
    let stays = "tele bit<8> n; {} {n = n + 1;} {if (n == 3) {reject;}}";
    let rejected = "Done packets 1/sent 0/dropped 0/rejected 1/lost 0/reports 0/";
    assert!(rt; surely(&rt, alloc, stays, &[1, 2], rejected));
}

#[test]
fn statuses_are_the_numbers_from_0_on(rt: HostRuntime) {
    let statuses = [
        Status::Done,
        Status::BadWords,
        Status::ReadFault,
        Status::BadProperty,
        Status::NotLinked,
        Status::BadProgram,
        Status::BadNetwork,
        Status::BadCapture,
        Status::WriteFault,
        Status::NoMemory,
    ];
    for (number, status) in statuses.into_iter().enumerate() {
        assert!(rt; status as usize == number);
    }
}
