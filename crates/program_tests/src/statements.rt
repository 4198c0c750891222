//! What statements do.

use crate::places::{ends, holds, places, state, statements};
use slot_statements::{exec_all, stmts_code};
use slot_terms::Fault;
use std::alloc::Global;
use std::mem::forget;
use std::process::Abort;

/// Statements, and what the slots hold behind them and how they end; or that they have no code.
const STATEMENTS: &str = "\
} => 1 64 513 171 99, go
; } => 1 64 513 171 99, go
a = b + 1; } => 65 64 513 171 99, go
a = 300; } => 44 64 513 171 99, go
c = a ++ b; } => 1 64 320 171 99, go
b = a; a = b; c = 7; } => 1 1 7 171 99, go
h.f = 7; g.f = 7; } => 1 64 513 7 99, go
a = g.f; } => 0 64 513 171 99, go
standard_metadata.ingress_port = x; } => 1 64 513 171 99, go
if (a == 1) b = 2; else b = 3; } => 1 2 513 171 99, go
if (a == 2) b = 2; else b = 3; } => 1 3 513 171 99, go
if (a == 2) b = 2; } => 1 64 513 171 99, go
if (a == 1) { if (b == 1) c = 2; else c = 3; } b = 5; } => 1 5 3 171 99, go
bit<8> v; a = v; } => 0 64 513 171 99, go
bit<8> v = 300; a = v; } => 44 64 513 171 99, go
bit<8> v = b; bit<16> w = v ++ v; c = w; b = v + v; } => 1 128 16448 171 99, go
{ bit<8> v = 5; a = v; } { bit<16> v = 600; c = v; } } => 5 64 600 171 99, go
if (a == 1) { bit<8> v = 5; a = v; } bit<8> v = 9; b = v; } => 5 9 513 171 99, go
bit<8> u = 1; bit<8> v = 2; bit<8> w = 3; a = u + v + w; } => 6 64 513 171 99, go
a = 2; return; a = 3; } => 2 64 513 171 99, return
a = 2; exit; a = 3; } => 2 64 513 171 99, exit
if (h.isValid()) { a = 2; exit; } a = 3; } => 2 64 513 171 99, exit
if (g.isValid()) { a = 2; exit; } a = 3; } => 3 64 513 171 99, go
{ { a = 2; return; } b = 3; } c = 4; } => 2 64 513 171 99, return
x = 1; } => unknown
h.x = 1; } => unknown
a = x; } => unknown
a = 2; b = x; } => unknown
bit<8> v = x; } => unknown
bit<8> a; } => unknown
bit<8> v; bit<8> v; } => unknown
{ bit<8> v; } v = 1; } => unknown
if (a == 1) { bit<8> v; } else { v = 1; } } => unknown
bit<8> u; bit<8> v; bit<8> w; bit<8> z; } => unknown
if (x == 1) a = 2; } => unknown
if (a == 1) x = 2; } => unknown
if (a == 1) a = 2; else x = 3; } => unknown
{ a = 1; { x = 1; } } } => unknown
mark_to_drop(standard_metadata); c = (bit<16>) standard_metadata.egress_spec; } => 1 64 511 171 99, go
if (a == 2) mark_to_drop(standard_metadata); c = (bit<16>) standard_metadata.egress_spec; } => 1 64 0 171 99, go
mark_to_dro(standard_metadata); } => unknown
digest(1, { a }); } => unknown
h.setInvalid(); } => unknown
go(a); } => unknown
t.apply(); } => unknown
if (t.apply().hit) a = 2; } => unknown
if (!t.apply().hit) a = 2; } => unknown";

/// Whether statements do what is wanted.
fn do_so(rt: &impl Abort, alloc: Global, text: &str, wanted: &str) -> bool {
    let trees = statements(rt, alloc, text);
    let mut places = places(rt, alloc);
    let found = stmts_code(alloc, &mut places, &trees);
    forget(trees);
    forget(places);
    match found {
        Ok(codes) => {
            let mut s = state(rt, alloc);
            let flow = exec_all(&codes, &mut s);
            let found = ends(rt, &s, flow, wanted);
            forget(codes);
            forget(s);
            found
        }
        Err(Fault::Unknown) => wanted == "unknown",
        Err(Fault::NoMemory) => false,
    }
}

/// A line is as it says.
fn line_holds(rt: &impl Abort, alloc: Global, line: &str) {
    let (text, wanted) = line.split_once(" => ").expect(rt, "an end");
    holds(rt, do_so(rt, alloc, text, wanted), line);
}

#[test]
fn statements_do(rt: HostRuntime) {
    for line in STATEMENTS.lines() {
        line_holds(&rt, rt.alloc(), line);
    }
}
