//! Whether a program has a place for all that the tables of another one hold. Linked programs have, so no command asks.

use crate::entries::{holds, program, put};
use p4_tables::stands_in;
use p4_types::TypedProgram;
use std::alloc::Global;
use std::mem::forget;
use std::process::Abort;

const BEFORE: &str = "header e_t { bit<8> x; bit<16> y; } struct headers_t { e_t e; } \
struct meta_t { } parser Prs(packet_in p, out headers_t h, inout meta_t m, \
inout standard_metadata_t std) { state start { p.extract(h.e); transition accept; } } \
control Ver(inout headers_t h, inout meta_t m) { apply { } } control Ing(inout headers_t h, \
inout meta_t m, inout standard_metadata_t std) { ";

const BEHIND: &str = " apply { } } control Egr(inout headers_t h, inout meta_t m, \
inout standard_metadata_t std) { apply { } } control Com(inout headers_t h, inout meta_t m) \
{ apply { } } control Dep(packet_out p, in headers_t h) { apply { p.emit(h.e); } } \
V1Switch(Prs(), Ver(), Ing(), Egr(), Com(), Dep()) main;";

/// What the ingress of the first program declares.
const TABLE: &str = "action a(bit<8> v) { h.e.x = v; } action b() { h.e.y = 1; } \
table t { key = { h.e.x: exact; } actions = { b; a; NoAction; } default_action = a(5); } ";

/// What that of the other one declares, and whether it has a place for the first one's table: under its
/// name, with the same keys, actions, parameters and default, among whatever else there is.
const OTHERS: &str = "\
action a(bit<8> v) { h.e.x = v; } action b() { h.e.y = 1; } table t { key = { h.e.x: exact; } actions = { b; a; NoAction; } default_action = a(5); } => true
action b() { h.e.y = 1; } action a(bit<8> w) { } table t { key = { h.e.x: exact; } actions = { b; a; NoAction; } default_action = a(5); } => true
action z() { } table s { key = { h.e.y: exact; } actions = { z; } } action a(bit<8> v) { } action b() { } table t { key = { h.e.x: exact; } actions = { b; a; NoAction; } default_action = a(5); } => true
 => false
action a(bit<8> v) { } action b() { } table u { key = { h.e.x: exact; } actions = { b; a; NoAction; } default_action = a(5); } => false
action a(bit<8> v) { } action b() { } table t { key = { h.e.y: exact; } actions = { b; a; NoAction; } default_action = a(5); } => false
action a(bit<8> v) { } action b() { } table t { key = { h.e.x: lpm; } actions = { b; a; NoAction; } default_action = a(5); } => false
action a(bit<8> v) { } action b() { } table t { key = { h.e.x: exact; h.e.y: exact; } actions = { b; a; NoAction; } default_action = a(5); } => false
action a(bit<8> v) { } action c() { } table t { key = { h.e.x: exact; } actions = { c; a; NoAction; } default_action = a(5); } => false
action a(bit<16> v) { } action b() { } table t { key = { h.e.x: exact; } actions = { b; a; NoAction; } default_action = a(5); } => false
action a(bit<8> v) { } action b() { } table t { key = { h.e.x: exact; } actions = { b; a; NoAction; } default_action = a(6); } => false
action a(bit<8> v) { } action b() { } table t { key = { h.e.x: exact; } actions = { b; a; NoAction; } default_action = b(); } => false
action a(bit<8> v) { } action b() { } table t { key = { h.e.x: exact; } actions = { b; a; NoAction; } const default_action = a(5); } => false";

/// The program of these declarations.
fn program_with(rt: &impl Abort, alloc: Global, locals: &str) -> TypedProgram {
    let mut text = String::new(alloc);
    put(rt, &mut text, BEFORE);
    put(rt, &mut text, locals);
    put(rt, &mut text, BEHIND);
    program(rt, alloc, &text)
}

/// Whether the program of these declarations has a place for another one's tables.
fn has_place(rt: &impl Abort, alloc: Global, first: &TypedProgram, locals: &str) -> bool {
    let other = program_with(rt, alloc, locals);
    let found = stands_in(alloc, first, &other).expect(rt, "memory");
    forget(other);
    found
}

/// A line is as it says.
fn line_holds(rt: &impl Abort, alloc: Global, first: &TypedProgram, line: &str) {
    let (locals, wanted) = line.split_once(" => ").expect(rt, "an answer");
    let found = has_place(rt, alloc, first, locals);
    holds(rt, found == (wanted == "true"), line);
}

#[test]
fn places(rt: HostRuntime) {
    let first = program_with(&rt, rt.alloc(), TABLE);
    for line in OTHERS.lines() {
        line_holds(&rt, rt.alloc(), &first, line);
    }
    forget(first);
}
