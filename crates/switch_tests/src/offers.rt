//! Which entries and defaults tables take, and why they refuse others.

use crate::entries::{offer, program, same};
use p4_tables::{EntryFault, TableState};
use p4_types::TypedProgram;
use std::alloc::Global;
use std::mem::forget;
use std::process::Abort;

const PROGRAM: &str = "header e_t { bit<8> x; bit<16> y; bit<32> k; } struct headers_t { e_t e; } \
struct meta_t { } parser Prs(packet_in p, out headers_t h, inout meta_t m, \
inout standard_metadata_t std) { state start { p.extract(h.e); transition accept; } } \
control Ver(inout headers_t h, inout meta_t m) { apply { } } control Ing(inout headers_t h, \
inout meta_t m, inout standard_metadata_t std) { action go(bit<8> v) { h.e.x = v; } \
action other() { } \
table t { key = { h.e.x: exact; } actions = { go; NoAction; } } \
table u { key = { h.e.x: exact; h.e.y: lpm; } actions = { go; } const default_action = go(1); } \
table w { key = { h.e.x: ternary; } actions = { go; } } \
apply { } } control Egr(inout headers_t h, inout meta_t m, \
inout standard_metadata_t std) { apply { } } control Com(inout headers_t h, inout meta_t m) \
{ apply { } } control Dep(packet_out p, in headers_t h) { apply { p.emit(h.e); } } \
V1Switch(Prs(), Ver(), Ing(), Egr(), Com(), Dep()) main;";

/// A table; items, of which it takes all but perhaps the last one; how many entries it then holds, and
/// what is answered for the last item.
const OFFERS: &str = "\
Ing.t: 8:1 -> Ing.go 8:7 => 1 Ok(())
Ing.t: 8:1 -> NoAction => 1 Ok(())
Ing.t: 8:1 -> Ing.other => 0 Err(NoSuchAction)
Ing.t: 16:1 -> Ing.other => 0 Err(NoSuchAction)
Ing.u: 8:1 16:200/8 -> NoAction => 0 Err(NoSuchAction)
Ing.t: 16:1 -> Ing.go 8:7 => 0 Err(WidthDiffers)
Ing.t: 8:1 8:2 -> Ing.go 8:7 => 0 Err(WidthDiffers)
Ing.t: 8:1/8 -> Ing.go 8:7 => 0 Err(WidthDiffers)
Ing.t: 8:1&8:ff -> Ing.go 8:7 => 0 Err(WidthDiffers)
Ing.t: 8:1 -> Ing.go => 0 Err(WidthDiffers)
Ing.t: 8:1 -> Ing.go 8:7 8:8 => 0 Err(WidthDiffers)
Ing.t: 8:1 -> Ing.go 9:7 => 0 Err(WidthDiffers)
Ing.t: 8:1 -> NoAction 8:1 => 0 Err(WidthDiffers)
Ing.u: 8:1 -> Ing.go 8:7 => 0 Err(WidthDiffers)
Ing.u: 8:1 16:200 -> Ing.go 8:7 => 0 Err(WidthDiffers)
Ing.u: 8:1 16:200/17 -> Ing.go 8:7 => 0 Err(WidthDiffers)
Ing.u: 8:1 16:200/16 -> Ing.go 8:7 => 1 Ok(())
Ing.u: 8:1 16:200/0 -> Ing.go 8:7 => 1 Ok(())
Ing.w: 8:1&9:ff -> Ing.go 8:7 => 0 Err(WidthDiffers)
Ing.t: 8:1 -> Ing.go 8:7; 8:1 -> NoAction => 1 Err(SameEntry)
Ing.t: 8:1 -> Ing.go 8:7; 8:1 -> Ing.go 9:7 => 1 Err(WidthDiffers)
Ing.t: 8:1 -> Ing.go 8:7 #1; 8:1 -> Ing.go 8:7 #2 => 1 Err(SameEntry)
Ing.t: 8:1 -> Ing.go 8:7 #1; 8:2 -> Ing.go 8:7 #1 => 2 Ok(())
Ing.u: 8:1 16:2ff/8 -> Ing.go 8:7; 8:1 16:200/8 -> Ing.go 8:8 => 1 Err(SameEntry)
Ing.u: 8:1 16:200/0 -> Ing.go 8:7; 8:1 16:ff00/0 -> Ing.go 8:8 => 1 Err(SameEntry)
Ing.u: 8:1 16:200/8 -> Ing.go 8:7; 8:1 16:200/9 -> Ing.go 8:8 => 2 Ok(())
Ing.u: 8:1 16:200/8 -> Ing.go 8:7; 8:2 16:200/8 -> Ing.go 8:8 => 2 Ok(())
Ing.w: 8:1&8:3 -> Ing.go 8:7 #1; 8:2&8:3 -> Ing.go 8:8 #1 => 1 Err(SamePriority)
Ing.w: 8:1&8:3 -> Ing.go 8:7 #1; 8:1&8:7 -> Ing.go 8:8 #1 => 1 Err(SamePriority)
Ing.w: 8:1&8:3 -> Ing.go 8:7 #1; 8:5&8:3 -> Ing.go 8:8 #1 => 1 Err(SameEntry)
Ing.w: 8:1&8:3 -> Ing.go 8:7 #1; 8:2&8:3 -> Ing.go 8:8 #2 => 2 Ok(())
Ing.w: 8:1&8:3 -> Ing.go 8:7 #1; 8:1&8:3 -> Ing.go 8:8 #2 => 2 Ok(())
Ing.t: default Ing.go 8:7 => 0 Ok(())
Ing.t: default Ing.other => 0 Err(NoSuchAction)
Ing.t: default Ing.go => 0 Err(WidthDiffers)
Ing.u: default NoAction => 0 Err(NoSuchAction)
Ing.u: default Ing.go 9:7 => 0 Err(WidthDiffers)
Ing.u: default Ing.go 8:7 => 0 Err(ConstDefault)";

/// What is answered for the last one of some items of a table, where those before it are taken.
fn last_answer(
    rt: &impl Abort,
    alloc: Global,
    p: &TypedProgram,
    state: &mut TableState,
    table: u32,
    items: &str,
) -> Result<(), EntryFault> {
    let mut last = Ok(());
    for item in items.split("; ") {
        assert!(rt; last.is_ok());
        last = offer(rt, alloc, p, state, table, item);
    }
    last
}

/// How many entries the program's tables hold behind some items of one table, and what is answered for
/// the last one.
fn answer(rt: &impl Abort, alloc: Global, p: &TypedProgram, name: &str, items: &str) -> String {
    let table = p.table_number(name).expect(rt, "a table");
    let mut state = TableState::new(alloc, p).expect(rt, "tables");
    let last = last_answer(rt, alloc, p, &mut state, table, items);
    let entries = state.entries();
    forget(state);
    format!(in alloc; "{entries} {last:?}").expect(rt, "memory")
}

/// A line is as it says.
fn line_holds(rt: &impl Abort, alloc: Global, p: &TypedProgram, line: &str) {
    let (name, rest) = line.split_once(": ").expect(rt, "a table");
    let (items, wanted) = rest.split_once(" => ").expect(rt, "an answer");
    same(rt, &answer(rt, alloc, p, name, items), wanted, line);
}

#[test]
fn offers(rt: HostRuntime) {
    let program = program(&rt, rt.alloc(), PROGRAM);
    for line in OFFERS.lines() {
        line_holds(&rt, rt.alloc(), &program, line);
    }
    forget(program);
}
