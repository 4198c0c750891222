//! A program, what it answers, and the rule that it breaks where words are others.

use p4_decls::read_program;
use p4_tree::Program;
use p4_types::{ProgramTypeFault, TypedProgram, check_program};
use std::alloc::Global;
use std::mem::forget;
use std::process::Abort;

/// A program that breaks no rule. A register at top level stands between those of two controls, and
/// two controls have a table, a register and an action of one name.
const TEXT: &str = "\
const bit<8> ONE = 8w1;
const bit<9> PORT = (bit<9>) ONE + 32;
typedef bit<16> kind_t;
header e_t { bit<8> x; kind_t kind; }
header f_t { bit<48> a; bit<48> b; kind_t kind; }
struct metadata { bit<8> m; bool g; }
struct headers { e_t e; f_t f; e_t last; }
register<bit<32>>(16) seen;
parser P(packet_in packet, out headers hdr, inout metadata meta,
    inout standard_metadata_t standard_metadata) {
  state start { packet.extract(hdr.e); transition select(hdr.e.x) { ONE: more; _: accept; } }
  state more { packet.extract(hdr.f); transition accept; }
}
control V(inout headers hdr, inout metadata meta) { apply { } }
control I(inout headers hdr, inout metadata meta,
    inout standard_metadata_t standard_metadata) {
  const bit<8> TWO = 2;
  register<bit<8>>(4) r;
  action drop() { mark_to_drop(standard_metadata); }
  action go(bit<9> port) { standard_metadata.egress_spec = port; digest(1, { meta.m }); }
  table t {
    key = { hdr.e.x: exact; }
    actions = { drop; go; NoAction; }
    default_action = drop();
  }
  table u { key = { hdr.f.a: lpm; } actions = { go; } default_action = go(PORT); }
  apply { t.apply(); if (hdr.f.isValid()) { u.apply(); } else { digest(2, { meta.m }); digest(3, { meta.m }); } }
}
register<bool>(3) late;
control E(inout headers hdr, inout metadata meta,
    inout standard_metadata_t standard_metadata) {
  action go() { meta.m = ONE; }
  register<bit<1>>(2) r;
  table t { key = { meta.m: ternary; } actions = { go; NoAction; } }
  apply { t.apply(); digest(4, { meta.m }); }
}
control K(inout headers hdr, inout metadata meta) { apply { } }
control D(packet_out packet, in headers hdr) { apply { packet.emit(hdr.e); packet.emit(hdr.f); } }
V1Switch(P(), V(), I(), E(), K(), D()) main;
";

/// The program that a text spells. What is read is let go of, since to drop a program costs the proof
/// more than all else.
fn read(rt: &impl Abort, alloc: Global, text: &str) -> Program {
    assert!(rt; text.len() <= 65536);
    read_program(alloc, text.as_bytes()).expect(rt, "a program")
}

/// The program above.
fn typed(rt: &impl Abort, alloc: Global) -> TypedProgram {
    check_program(alloc, read(rt, alloc, TEXT)).expect(rt, "a well-typed program")
}

/// Its copy, which outlives it.
fn copied(rt: &impl Abort, alloc: Global) -> TypedProgram {
    typed(rt, alloc).copy(alloc).expect(rt, "memory")
}

fn wide(number: Option<u32>) -> Option<u128> {
    match number {
        Some(number) => Some(u128::from(number)),
        None => None,
    }
}

/// What is answered for a name.
fn of_name(program: &TypedProgram, call: &str, name: &str) -> Option<u128> {
    match call {
        "table" => wide(program.table_number(name)),
        "register" => wide(program.register_number(name)),
        "action" => wide(program.action_number(name)),
        "constant" => program.constant(name).map(|word| word.value),
        _ => program.constant(name).map(|word| u128::from(word.width)),
    }
}

/// Whether this is the wanted answer, a number or `-`.
fn is_answer(rt: &impl Abort, given: Option<u128>, wanted: &str) -> bool {
    match given {
        Some(number) => {
            wanted != "-" && number == u128::from_str_radix(wanted, 10).expect(rt, "a number")
        }
        None => wanted == "-",
    }
}

/// Each row is what is asked, a name, and the answer or `-`.
fn each(rt: &impl Abort, program: &TypedProgram, table: &str) {
    for row in table.lines() {
        let (call, rest) = row.split_once(" ").expect(rt, "a name");
        let (name, wanted) = rest.rsplit_once(" ").expect(rt, "an answer");
        let given = of_name(program, call, name);
        assert!(rt; is_answer(rt, given, wanted), "{row}");
    }
}

const ANSWERS: &str = "\
table I.t 0
table I.u 1
table E.t 2
table t -
table I.t.x -
table  -
table I -
table I. -
table .t -
table V.t -
table E.u -
table I.r -
table II.t -
table i.t -
register seen 0
register I.r 1
register late 2
register E.r 3
register r -
register I.seen -
register I.late -
register I.t -
action I.drop 0
action I.go 1
action E.go 2
action NoAction 3
action go -
action E.drop -
action I.NoAction -
action noAction -
constant ONE 1
width ONE 8
constant PORT 33
width PORT 9
constant TWO -
constant I.TWO -
constant kind_t -
";

/// The bytes of headers are 3 and 14 and 3. Ingress gives a digest in `go` by `t`, and then two in the
/// branch without `u`; egress gives one. The cells are 16, 4, 3 and 2.
fn counts(rt: &impl Abort, program: &TypedProgram) {
    assert!(rt; program.header_bytes() == 20);
    assert!(rt; program.digest_bound() == 4);
    assert!(rt; program.cells() == 25);
    assert!(rt; program.program().tops.len() == 15);
}

/// All of it.
fn answers_all(rt: &impl Abort, program: TypedProgram) {
    each(rt, &program, ANSWERS);
    counts(rt, &program);
    forget(program);
}

#[test]
fn answers(rt: HostRuntime) {
    answers_all(&rt, typed(&rt, rt.alloc()));
    answers_all(&rt, copied(&rt, rt.alloc()));
}

/// A text whose words `old` are others.
fn changed(rt: &impl Abort, alloc: Global, old: &str, new: &str) -> String {
    let (front, back) = TEXT.split_once(old).expect(rt, "the old words");
    let mut text = String::from_str(alloc, front).expect(rt, "memory");
    text.push_str(new).expect(rt, "memory");
    text.push_str(back).expect(rt, "memory");
    text
}

/// The broken rule that is answered with its place, or `fine`.
fn refusal(rt: &impl Abort, alloc: Global, text: &str) -> String {
    match check_program(alloc, read(rt, alloc, text)) {
        Ok(program) => {
            forget(program);
            String::from_str(alloc, "fine").expect(rt, "memory")
        }
        Err(ProgramTypeFault::Type_ { at, rule }) => {
            format!(in alloc; "{rule:?} {at}").expect(rt, "memory")
        }
        Err(ProgramTypeFault::NoMemory) => panic!(rt; "memory is wanting"),
    }
}

/// What is answered, the old words and the new ones. The places are those of the first lines' tokens,
/// from 0: `PORT` begins at 9, and the typedef at 26.
const CHANGES: &str = "\
fine | = 8w1 | = 8w257
WidthDiffers 7 | = 8w1 | = 9w1
NameTwice 9 | PORT = | ONE =
NoSuchName 22 | ONE + 32 | TWO + 32
BadSize 26 | bit<16> kind_t | bit<129> kind_t";

/// What is counted, bytes of headers, digests of a passage and cells, of the program with a change; `@` stands for what the
/// ingress does. Each header in the struct of headers counts, and no other. Of branches and of a table's actions those with the
/// most digests count, what stands behind a `return` too, and no action that is not called.
///
/// The egress gives one digest, and in the fourth row the ingress 1 by `go`, and then 1 or 2; in the fifth the table 1 at most, and
/// the branch 1; in the sixth the branches 1 at most, and what stands behind them 3; in the seventh `t` and `u` 2 each.
const COUNTS: &str = "\
20/4/25 | struct metadata { | struct others { f_t c; } struct metadata {
34/4/25 | e_t last; } | e_t last; f_t more; }
20/4/32 | register<bit<8>>(4) r; | register<bit<8>>(11) r;
20/4/25 | @ | go(PORT); if (meta.g) { go(PORT); } else { go(PORT); digest(1, { meta.m, meta.m }); }
20/3/25 | @ | if (!t.apply().hit) { digest(1, { meta.m }); }
20/5/25 | @ | if (meta.g) digest(1, { meta.m }); else if (hdr.e.x == 1) digest(2, { meta.m }); { digest(1, { meta.m }); { digest(2, { meta.m }); } } digest(3, { meta.m });
20/5/25 | digest(1, { meta.m }); } | digest(1, { meta.m }); return; digest(1, { meta.m }); }
20/4/25 | action drop() | action b() { digest(1, { meta.m }); digest(1, { meta.m }); digest(1, { meta.m }); digest(1, { meta.m }); } action drop()
20/1/25 | @ | ;";

/// What the ingress does.
const INGRESS: &str =
    "t.apply(); if (hdr.f.isValid()) { u.apply(); } else { digest(2, { meta.m }); digest(3, { meta.m }); }";

/// What is counted of a text's program.
fn counted(rt: &impl Abort, alloc: Global, text: &str) -> String {
    let program = check_program(alloc, read(rt, alloc, text)).expect(rt, "a well-typed program");
    let (bytes, digests) = (program.header_bytes(), program.digest_bound());
    let cells = program.cells();
    forget(program);
    format!(in alloc; "{bytes}/{digests}/{cells}").expect(rt, "memory")
}

/// The answer, the old words and the new ones of a row.
fn parts<'a>(rt: &impl Abort, row: &'a str) -> (&'a str, &'a str, &'a str) {
    let (wanted, words) = row.split_once(" | ").expect(rt, "old words");
    let (old, new) = words.split_once(" | ").expect(rt, "new words");
    (wanted, if old == "@" { INGRESS } else { old }, new)
}

/// A row is as it says: the answer is the rule that is broken, or else what is counted.
fn is_told(rt: &impl Abort, alloc: Global, row: &str, is_counted: bool) {
    let (wanted, old, new) = parts(rt, row);
    let text = changed(rt, alloc, old, new);
    let given = if is_counted {
        counted(rt, alloc, &text)
    } else {
        refusal(rt, alloc, &text)
    };
    assert!(rt; given.as_str() == wanted, "{row}");
}

#[test]
fn changes(rt: HostRuntime) {
    for row in CHANGES.lines() {
        is_told(&rt, rt.alloc(), row, false);
    }
    for row in COUNTS.lines() {
        is_told(&rt, rt.alloc(), row, true);
    }
}
