//! Switches: tables, registers, packets and passages.

use crate::never::never;
use arrayvec::ArrayVec;
use bit_values::Bits;
use lex_text::Name;
use p4_machine::{Digest, Entered, FrameBuf, Pass, Passed, Queued, Switch};
use p4_registers::Cells;
use p4_tables::{Chosen, Entry, EntryFault, Match, TableState};
use p4_tree::Expr;
use p4_types::TypedProgram;
use packet_parse::{Fields, ParserError, StdMeta, csum16, eval, run_deparser, run_parser};
use std::alloc::{AllocError, Global};
use std::mem::forget;

/// Entries, and what a table chooses.
pub fn entries(alloc: Global, entry: &Entry, key: &Match, chosen: &Chosen<'_>) {
    let _: &Vec<Match> = &entry.keys;
    let _: u32 = entry.action;
    let _: &Vec<Bits> = &entry.args;
    let _: u32 = entry.priority;
    let _: u32 = chosen.action;
    let _: &[Bits] = chosen.args;
    let _: bool = chosen.hit;
    match key {
        Match::Exact(word) => {
            let _: &Bits = word;
        }
        Match::Lpm(word, length) => {
            let _: &Bits = word;
            let _: &u8 = length;
        }
        Match::Ternary(word, mask) => {
            let _: &Bits = word;
            let _: &Bits = mask;
        }
    }
    if never() {
        forget::<Result<Entry, AllocError>>(entry.copy(alloc));
    }
}

/// The tables of a switch.
pub fn tables(
    alloc: Global,
    p: &TypedProgram,
    state: &mut TableState,
    table: u32,
    entry: Entry,
    args: Vec<Bits>,
    keys: &[Bits],
) {
    if never() {
        forget::<Result<TableState, AllocError>>(TableState::new(alloc, p));
        forget::<Result<(), EntryFault>>(state.insert(alloc, table, entry));
        forget::<Result<(), EntryFault>>(state.set_default(alloc, table, 0, args));
        let _: Chosen<'_> = state.choose(table, keys);
        let _: u32 = state.entries();
        forget::<Result<TableState, AllocError>>(state.carried(alloc, p, p));
    }
}

/// A table whose entries are replaced.
pub fn replaced(
    alloc: Global,
    state: &mut TableState,
    table: u32,
    list: Vec<Entry>,
    default: Option<(u32, Vec<Bits>)>,
) {
    if never() {
        forget::<Result<(), AllocError>>(state.replace(alloc, table, list, default));
    }
}

/// What an entry is refused for.
pub fn faults(fault: EntryFault) {
    match fault {
        EntryFault::NoMemory => {}
        EntryFault::NoSuchAction | EntryFault::WidthDiffers | EntryFault::SameEntry => {}
        EntryFault::SamePriority | EntryFault::TableLimit | EntryFault::ConstDefault => {}
    }
}

/// Registers.
pub fn registers(alloc: Global, cells: &mut Cells, width: u8, count: u32, index: u128, v: Bits) {
    if never() {
        forget::<Result<Cells, AllocError>>(Cells::new(alloc, width, count));
        let _: Bits = cells.read(index);
        cells.write(index, v);
    }
}

/// Parsers, deparsers and expressions.
pub fn packets(alloc: Global, p: &TypedProgram, e: &Expr, s: &mut Fields, bytes: &[u8], width: u8) {
    if never() {
        let _: Bits = eval(p, e, width, s);
        forget::<Result<u32, AllocError>>(run_parser(alloc, p, s, bytes));
        forget::<Result<Vec<u8>, AllocError>>(run_deparser(alloc, p, s, bytes));
        let _: u16 = csum16(bytes);
    }
}

/// What is in sight.
pub fn fields(s: &Fields, std: &StdMeta) {
    let _: &Vec<(Vec<Name>, bool)> = &s.valid;
    let _: &Vec<(Vec<Name>, Bits)> = &s.values;
    let _: &Name = &s.std_name;
    let _: &StdMeta = &s.std;
    let _: u16 = std.ingress_port;
    let _: u16 = std.egress_spec;
    let _: u16 = std.egress_port;
    let _: u32 = std.packet_length;
    let _: bool = std.checksum_error;
    match std.parser_error {
        ParserError::NoError | ParserError::PacketTooShort | ParserError::NoMatch => {}
    }
}

/// A switch and its buffer.
pub fn made(alloc: Global, p: &TypedProgram, program: TypedProgram, tables: TableState) {
    if never() {
        let made: Result<FrameBuf, AllocError> = FrameBuf::new(alloc, p);
        if let Ok(buf) = made {
            let _: &[u8] = buf.frame();
            let _: &[Digest] = buf.digests();
        }
        forget::<Result<Switch, AllocError>>(Switch::new(alloc, program, tables));
    }
}

/// What any switch does.
pub fn passes<P: Pass>(
    alloc: Global,
    switch: &mut P,
    port: u16,
    frame: &[u8],
    buf: &mut FrameBuf,
    place: &mut P::Place,
) {
    if never() {
        forget::<Result<Passed, AllocError>>(switch.pass(alloc, port, frame, buf));
        forget::<Result<P::Place, AllocError>>(switch.room(alloc, 1));
        forget::<Result<Entered, AllocError>>(switch.enter(alloc, port, frame, buf, place));
        forget::<Result<Passed, AllocError>>(switch.leave(alloc, place, buf));
        let _: Bits = switch.cell(0, 0);
    }
}

/// Whether a packet waits in a place.
pub fn waits(place: &Queued) {
    let _: bool = place.full();
}

/// A switch whose table is replaced.
pub fn set<P: Pass>(
    alloc: Global,
    switch: &mut P,
    table: u32,
    list: Vec<Entry>,
    default: Option<(u32, Vec<Bits>)>,
) {
    if never() {
        forget::<Result<(), AllocError>>(switch.set_table(alloc, table, list, default));
    }
}

/// What comes of a passage.
pub fn passed(passed: Passed, entered: Entered, digest: &Digest) {
    match passed {
        Passed::Out { port } => {
            let _: u16 = port;
        }
        Passed::Dropped => {}
    }
    match entered {
        Entered::Queued | Entered::Dropped => {}
    }
    let _: u32 = digest.receiver;
    let _: &ArrayVec<Bits, 9> = &digest.values;
}
