//! Properties that run: over whole paths, and by single hops and blocks.

use crate::expressions::{key_words, pairs};
use crate::texts::{put, read, same, show_state, sides};
use bit_values::Bits;
use indus_run::{has_short_reports, hop_step, is_shaped, run_block};
use indus_tree::Property;
use indus_values::{ControlValue, HopResult, HopView, SensorState, TeleState};
use std::alloc::Global;
use std::mem::forget;
use std::process::Abort;

fn view(alloc: Global, switch: u16, first: bool, last: bool) -> HopView {
    HopView {
        switch,
        first,
        last,
        entry_: Vec::new(alloc),
        exit_: Some(Vec::new(alloc)),
        control: Vec::new(alloc),
    }
}

fn nothing(alloc: Global) -> HopResult {
    HopResult {
        rejected: false,
        reports: Vec::new(alloc),
    }
}

/// A hop of a property whose reports are short, in states that it has shaped.
fn step(
    rt: &impl Abort,
    alloc: Global,
    p: &Property,
    view: &HopView,
    tele: &mut TeleState,
    sensors: &mut SensorState,
) -> HopResult {
    assert!(rt; has_short_reports(p) && is_shaped(p, tele, sensors));
    hop_step(alloc, p, view, tele, sensors).expect(rt, "memory")
}

// ---- paths

/// What is left behind the last hop of a path over the switches 0, 1 ..
fn over(rt: &impl Abort, alloc: Global, p: &Property, hops: u16) -> String {
    let mut tele = TeleState::start(alloc, p).expect(rt, "memory");
    let mut sensors = SensorState::start(alloc, p).expect(rt, "memory");
    let mut left = show_state(rt, alloc, &tele, &sensors, &nothing(alloc));
    for switch in 0..hops {
        let hop = view(alloc, switch, switch == 0, switch + 1 == hops);
        let last = step(rt, alloc, p, &hop, &mut tele, &mut sensors);
        left = show_state(rt, alloc, &tele, &sensors, &last);
    }
    left
}

/// Each row is a number of hops, a property, and what it leaves behind the path.
///
/// A third push onto a list of two changes nothing. A sensor wraps.
///
/// Loops over lists of different length take as many turns as the shortest list has items: in two turns
/// m is 1 * 10 + 2 * 20, and n is twice the sum of a.
///
/// No index of a cell is cut: 2 ^ 64 + 1 is not 1, and 2 ^ 128 - 1 is out of range too.
///
/// Reports have up to eight values. The checker goes on behind `reject`, and the flag is that of the last
/// hop.
const PATHS: &str = "\
3 tele bit<9>[2] l; {} {l.push((bit<9>) switch_id);} {report(length(l), 2 in l, 1 in l);} => [9w0 9w1] / / #0(8w2 1w0 1w1)
0 sensor bit<8> s = 250; {} {s = s + 3;} {} => / [8w250] /
1 sensor bit<8> s = 250; {} {s = s + 3;} {} => / [8w253] /
2 sensor bit<8> s = 250; {} {s = s + 3;} {} => / [8w0] /
3 sensor bit<8> s = 250; {} {s = s + 3;} {} => / [8w3] /
1 tele bit<8>[3] a; tele bit<8>[2] b; tele bit<8> n; tele bit<8> m; {a.push(1); a.push(2); a.push(3); b.push(10); b.push(20);} {for (x, y in a, b) {m = m + x * y; for (z in a) {n = n + z;}}} {} => [8w1 8w2 8w3] [8w10 8w20] [8w12] [8w50] / /
1 tele bit<8>[3] a; tele bit<8>[2] b; tele bit<8> n; tele bit<8> m; {a.push(1); a.push(2); b.push(10); b.push(20);} {for (x, y in a, b) {m = m + x * y; for (z in a) {n = n + z;}}} {} => [8w1 8w2] [8w10 8w20] [8w6] [8w50] / /
1 tele bit<8>[3] a; tele bit<8>[2] b; tele bit<8> n; tele bit<8> m; {a.push(1); b.push(10); b.push(20);} {for (x, y in a, b) {m = m + x * y; for (z in a) {n = n + z;}}} {} => [8w1] [8w10 8w20] [8w1] [8w10] / /
1 tele bit<8>[3] a; tele bit<8>[2] b; tele bit<8> n; tele bit<8> m; {a.push(1); a.push(2); a.push(3); b.push(10);} {for (x, y in a, b) {m = m + x * y; for (z in a) {n = n + z;}}} {} => [8w1 8w2 8w3] [8w10] [8w6] [8w10] / /
1 tele bit<8>[3] a; tele bit<8>[2] b; tele bit<8> n; tele bit<8> m; {b.push(10); b.push(20);} {for (x, y in a, b) {m = m + x * y; for (z in a) {n = n + z;}}} {} => [] [8w10 8w20] [8w0] [8w0] / /
1 tele bit<8>[3] a; tele bit<8>[2] b; tele bit<8> n; tele bit<8> m; {a.push(1); a.push(2); a.push(3);} {for (x, y in a, b) {m = m + x * y; for (z in a) {n = n + z;}}} {} => [8w1 8w2 8w3] [] [8w0] [8w0] / /
1 sensor bit<8>[3] a = 9; tele bit<8> n; tele bit<8> m; {} {a[2] = 5; a[0] = 6; n = a[0]; m = a[1];} {} => [8w6] [8w9] / [8w6 8w9 8w5] /
1 sensor bit<8>[3] a = 9; tele bit<8> n; tele bit<8> m; {} {a[2] = 5; a[2] = 6; n = a[2]; m = a[1];} {} => [8w6] [8w9] / [8w9 8w9 8w6] /
1 sensor bit<8>[3] a = 9; tele bit<8> n; tele bit<8> m; {} {a[2] = 5; a[3] = 6; n = a[3]; m = a[1];} {} => [8w0] [8w9] / [8w9 8w9 8w5] /
1 sensor bit<8>[3] a = 9; tele bit<8> n; tele bit<8> m; {} {a[2] = 5; a[256] = 6; n = a[256]; m = a[1];} {} => [8w0] [8w9] / [8w9 8w9 8w5] /
1 sensor bit<8>[3] a = 9; tele bit<8> n; tele bit<8> m; {} {a[2] = 5; a[18446744073709551617] = 6; n = a[18446744073709551617]; m = a[1];} {} => [8w0] [8w9] / [8w9 8w9 8w5] /
1 sensor bit<8>[3] a = 9; tele bit<8> n; tele bit<8> m; {} {a[2] = 5; a[340282366920938463463374607431768211455] = 6; n = a[340282366920938463463374607431768211455]; m = a[1];} {} => [8w0] [8w9] / [8w9 8w9 8w5] /
1 tele bit<8> n; {n = n + 1;} {n = n + n;} {if (n == 2) {reject;} report(n, n, n, n, n, n, n, true); n = 0; report();} => [8w0] / / reject #0(8w2 8w2 8w2 8w2 8w2 8w2 8w2 1w1) #1()
2 tele bit<8> n; {n = n + 1;} {n = n + n;} {if (n == 2) {reject;} report(n, n, n, n, n, n, n, true); n = 0; report();} => [8w0] / / #0(8w4 8w4 8w4 8w4 8w4 8w4 8w4 1w1) #1()
3 tele bit<8> n; {n = n + 1;} {n = n + n;} {if (n == 2) {reject;} report(n, n, n, n, n, n, n, true); n = 0; report();} => [8w0] / / #0(8w8 8w8 8w8 8w8 8w8 8w8 8w8 1w1) #1()";

/// A row is as it says.
fn is_left(rt: &impl Abort, alloc: Global, row: &str) {
    let (hops, rest) = row.split_once(" ").expect(rt, "a number of hops");
    let (text, wanted) = sides(rt, rest);
    let hops = u16::from_str_radix(hops, 10).expect(rt, "a number of hops");
    let p = read(rt, alloc, text);
    let left = over(rt, alloc, &p, hops);
    forget(p);
    same(rt, &left, wanted, row);
}

#[test]
fn paths(rt: HostRuntime) {
    for row in PATHS.lines() {
        is_left(&rt, rt.alloc(), row);
    }
}

/// Whether a property whose report has these values has short reports.
fn is_short(rt: &impl Abort, alloc: Global, values: &str) -> bool {
    let mut text = String::new(alloc);
    put(rt, &mut text, "{} {} {if (false) {} else {report(");
    put(rt, &mut text, values);
    put(rt, &mut text, ");}}");
    let p = read(rt, alloc, &text);
    let found = has_short_reports(&p);
    forget(p);
    found
}

/// A report with nine values is refused by the test.
#[test]
fn reports_with_nine_values(rt: HostRuntime) {
    assert!(rt; is_short(&rt, rt.alloc(), "1, 1, 1, 1, 1, 1, 1, 1"));
    assert!(rt; !is_short(&rt, rt.alloc(), "1, 1, 1, 1, 1, 1, 1, 1, 1"));
}

// ---- blocks

/// Telemetry by itself, in states that the property has shaped; then these are left.
fn telemetry(
    rt: &impl Abort,
    alloc: Global,
    p: &Property,
    tele: &mut TeleState,
    sensors: &mut SensorState,
    out: &mut HopResult,
    wanted: &str,
) {
    assert!(rt; has_short_reports(p) && is_shaped(p, tele, sensors));
    let hop = view(alloc, 0, true, true);
    run_block(alloc, p, &p.tele, &hop, &[], tele, sensors, out).expect(rt, "memory");
    same(
        rt,
        &show_state(rt, alloc, tele, sensors, out),
        wanted,
        "a block",
    );
}

/// 200, and 400 less 256. The flag and the reports are added to what is there.
#[test]
fn a_block_runs_twice(rt: HostRuntime) {
    let alloc = rt.alloc();
    let text = "tele bit<8> n; {report();} {n = n + 200; report(n); reject;} {}";
    let p = read(&rt, alloc, text);
    let mut tele = TeleState::start(alloc, &p).expect(&rt, "memory");
    let mut sensors = SensorState::start(alloc, &p).expect(&rt, "memory");
    let mut out = nothing(alloc);
    let once = "[8w200] / / reject #1(8w200)";
    telemetry(&rt, alloc, &p, &mut tele, &mut sensors, &mut out, once);
    let twice = "[8w144] / / reject #1(8w200) #1(8w144)";
    telemetry(&rt, alloc, &p, &mut tele, &mut sensors, &mut out, twice);
    forget(p);
}

// ---- header and control variables

/// A hop leaves this, and has this result.
fn leaves(rt: &impl Abort, alloc: Global, p: &Property, hop: &HopView, wanted: &str) {
    let mut tele = TeleState::start(alloc, p).expect(rt, "memory");
    let mut sensors = SensorState::start(alloc, p).expect(rt, "memory");
    let result = step(rt, alloc, p, hop, &mut tele, &mut sensors);
    let left = show_state(rt, alloc, &tele, &sensors, &result);
    same(rt, &left, wanted, "a hop");
}

/// The words of a key as the one member.
fn member(rt: &impl Abort, alloc: Global) -> ControlValue {
    let mut members = Vec::new(alloc);
    members
        .push(key_words(rt, alloc, 1, 0))
        .expect(rt, "memory");
    ControlValue::Members(members)
}

#[test]
fn keys_of_two_parts(rt: HostRuntime) {
    let alloc = rt.alloc();
    let text =
        "control dict<(bit<8>, bool), bit<16>> d; control set<(bit<8>, bool)> s; {} {} {report(d[1, true], d[1, false], d[2, true], (1, false) in s, (1, true) in s);}";
    let p = read(&rt, alloc, text);
    let mut hop = view(alloc, 0, true, true);
    hop.control.push(pairs(&rt, alloc)).expect(&rt, "memory");
    hop.control.push(member(&rt, alloc)).expect(&rt, "memory");
    leaves(&rt, alloc, &p, &hop, "/ / #0(16w500 16w7 16w0 1w1 1w0)");
    forget(p);
}

/// A hop with a header variable of 3 at its entry and of 5 at its exit, and a control variable of 20.
fn both_views(rt: &impl Abort, alloc: Global, first: bool) -> HopView {
    let mut hop = view(alloc, 0, first, true);
    hop.entry_.push(Bits::new(9, 3)).expect(rt, "memory");
    let mut exit = Vec::new(alloc);
    exit.push(Bits::new(9, 5)).expect(rt, "memory");
    hop.exit_ = Some(exit);
    let control = ControlValue::One(Bits::new(9, 20));
    hop.control.push(control).expect(rt, "memory");
    hop
}

/// Init reads the entry view and telemetry the exit view, which a dropped packet does not have.
#[test]
fn views_of_the_two_parts(rt: HostRuntime) {
    let alloc = rt.alloc();
    let text =
        "header bit<9> o = a.b; control bit<9> c; tele bit<9> n; tele bit<9> m; {n = o;} {m = o + c;} {}";
    let p = read(&rt, alloc, text);
    let mut hop = both_views(&rt, alloc, true);
    leaves(&rt, alloc, &p, &hop, "[9w3] [9w25] / /");
    leaves(
        &rt,
        alloc,
        &p,
        &both_views(&rt, alloc, false),
        "[9w0] [9w25] / /",
    );
    hop.exit_ = None;
    leaves(&rt, alloc, &p, &hop, "[9w3] [9w0] / /");
    forget(p);
}

/// A report in each block. That of init stays where forwarding drops the packet.
#[test]
fn reports_of_each_block(rt: HostRuntime) {
    let alloc = rt.alloc();
    let text = "edition 2; sensor bit<8> s; {report(1w1);} {s = s + 1; report(s);} {report(s);}";
    let p = read(&rt, alloc, text);
    let mut hop = view(alloc, 0, true, true);
    leaves(&rt, alloc, &p, &hop, "/ [8w1] / #0(1w1) #1(8w1) #2(8w1)");
    hop.exit_ = None;
    leaves(&rt, alloc, &p, &hop, "/ [8w0] / #0(1w1)");
    forget(p);
}

// ---- what two packets of a run show

/// What is left and told at the last of two hops of a packet, where each switch keeps its own.
fn second_hop(rt: &impl Abort, alloc: Global, p: &Property, kept: &mut [SensorState]) -> String {
    let mut tele = TeleState::start(alloc, p).expect(rt, "memory");
    let mut left = String::new(alloc);
    for (switch, sensors) in kept.iter_mut().enumerate() {
        let number = u16::try_from(switch).unwrap_or(0);
        let hop = view(alloc, number, switch == 0, switch == 1);
        let last = step(rt, alloc, p, &hop, &mut tele, sensors);
        left = show_state(rt, alloc, &tele, sensors, &last);
        forget(hop);
        forget(last);
    }
    forget(tele);
    left
}

/// A sensor at each of two switches counts, and the packet carries what the last one counts.
#[test]
fn packets_behind_each_other(rt: HostRuntime) {
    let alloc = rt.alloc();
    let text =
        "sensor bit<8> seen; tele bit<8> mine; {} {seen = seen + 1; mine = seen;} {report(mine);}";
    let p = read(&rt, alloc, text);
    let mut kept = Vec::new(alloc);
    for _ in 0..2 {
        let sensors = SensorState::start(alloc, &p).expect(&rt, "memory");
        kept.push(sensors).expect(&rt, "memory");
    }
    for wanted in ["[8w1] / [8w1] / #0(8w1)", "[8w2] / [8w2] / #0(8w2)"] {
        same(
            &rt,
            &second_hop(&rt, alloc, &p, &mut kept),
            wanted,
            "a packet",
        );
    }
    forget(kept);
    forget(p);
}

/// The pair of a key of 9 bits and a value of 8.
fn put_pair(
    rt: &impl Abort,
    alloc: Global,
    pairs: &mut Vec<(Vec<Bits>, Bits)>,
    key: u128,
    to: u128,
) {
    let mut words = Vec::new(alloc);
    words.push(Bits::new(9, key % 512)).expect(rt, "memory");
    pairs
        .push((words, Bits::new(8, to % 256)))
        .expect(rt, "memory");
}

/// The contents that a schedule sets, at the second of two hops: the packet comes by port 1 and goes by port 2.
#[test]
fn contents_at_the_last_hop(rt: HostRuntime) {
    let alloc = rt.alloc();
    let text =
        "control dict<bit<9>, bit<8>> tenants; header bit<9> i = standard_metadata.ingress_port; header bit<9> o = standard_metadata.egress_port; {} {} {report(tenants[o], tenants[i]);}";
    let p = read(&rt, alloc, text);
    let mut pairs = Vec::new(alloc);
    put_pair(&rt, alloc, &mut pairs, 1, 7);
    put_pair(&rt, alloc, &mut pairs, 2, 8);
    let mut hop = view(alloc, 1, false, true);
    hop.control
        .push(ControlValue::Pairs(pairs))
        .expect(&rt, "memory");
    let mut exit = Vec::new(alloc);
    for port in [1, 2] {
        exit.push(Bits::new(9, port)).expect(&rt, "memory");
    }
    hop.exit_ = Some(exit);
    leaves(&rt, alloc, &p, &hop, "/ / #0(8w8 8w7)");
    forget(hop);
    forget(p);
}
