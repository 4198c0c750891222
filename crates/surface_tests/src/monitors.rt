//! What a property is compiled into, and the run of a network.

use crate::never::never;
use bit_values::Bits;
use control_tables::{ControlMap, contents_for, table_for};
use exit_lowering::without_exits;
use indus_tree::{Decl, Stmt};
use indus_types::TypedProperty;
use indus_values::{ControlValue, TeleState};
use lex_text::Name;
use lower_lists::{FlatProperty, LowerFault, flatten};
use network_file::{Event, Network};
use p4_machine::{Digest, FrameBuf, Pass};
use p4_tables::Entry;
use p4_tree::{Action, Register, Table};
use p4_types::TypedProgram;
use path_runner::{Net, Packet, RunLog, Sent, Told};
use sensor_registers::{cell_value, register_for};
use std::alloc::{AllocError, Global};
use std::mem::forget;
use tele_layout::{Layout, LayoutFault, Slot, layout, read_tele, write_tele};

/// The bytes of telemetry.
pub fn telemetry(
    alloc: Global,
    p: &TypedProperty,
    room: u16,
    l: &Layout,
    slot: Slot,
    tele: &TeleState,
    buf: &mut [u8],
) {
    let _: u32 = slot.variable;
    let _: u32 = slot.at;
    let _: u8 = slot.width;
    let _: u8 = slot.count;
    let _: u16 = l.bytes;
    let _: &Vec<Slot> = &l.slots;
    if never() {
        forget::<Result<Layout, LayoutFault>>(layout(alloc, p, room));
        write_tele(l, tele, buf);
        forget::<Result<Option<TeleState>, AllocError>>(read_tele(alloc, l, buf));
    }
}

/// The tables of control variables.
pub fn tables(alloc: Global, d: &Decl, number: u32, v: &ControlValue, map: &ControlMap) {
    let _: &Vec<(Name, Name, u32)> = &map.tables;
    if never() {
        forget::<Result<(Table, Action), AllocError>>(table_for(alloc, d, number));
        forget::<Result<(Vec<Entry>, Option<(u32, Vec<Bits>)>), AllocError>>(contents_for(
            alloc, v, number,
        ));
    }
}

/// The registers of sensors.
pub fn registers(alloc: Global, d: &Decl, start: Bits, value: Bits) {
    if never() {
        forget::<Result<Register, AllocError>>(register_for(alloc, d));
        let _: Bits = cell_value(start, value);
    }
}

/// Flat code, and programs without exits.
pub fn lowered(alloc: Global, p: &TypedProperty, flat: &FlatProperty, program: &TypedProgram) {
    let _: &Vec<Stmt> = &flat.init;
    let _: &Vec<Stmt> = &flat.tele;
    let _: &Vec<Stmt> = &flat.check;
    if never() {
        forget::<Result<FlatProperty, LowerFault>>(flatten(alloc, p));
        forget::<Result<TypedProgram, AllocError>>(without_exits(alloc, program));
    }
}

/// What telemetry and flat code are refused for.
pub fn faults(layout: LayoutFault, lower: LowerFault) {
    match layout {
        LayoutFault::NoMemory => {}
        LayoutFault::RoomShort { need, room } => {
            let _: u64 = need;
            let _: u16 = room;
        }
    }
    match lower {
        LowerFault::NoMemory => {}
        LowerFault::TooLarge { weight } => {
            let _: u32 = weight;
        }
    }
}

/// A network that runs.
pub fn started<P: Pass + Drop>(
    alloc: Global,
    switches: Vec<P>,
    bufs: Vec<FrameBuf>,
    network: Network,
    packets: Vec<Packet>,
    map: Vec<Vec<(u32, u32, u32, Decl)>>,
    hops: u8,
    limit: u32,
) {
    if never() {
        forget::<Result<Net<P>, AllocError>>(Net::new(
            alloc, switches, bufs, network, packets, map, hops, limit,
        ));
    }
}

/// An event, and the end of the run.
pub fn ended<P: Pass + Drop>(alloc: Global, net: Net<P>, event: &Event) {
    let mut net = net;
    if never() {
        forget::<Result<(), AllocError>>(net.step(alloc, event));
        forget::<Result<RunLog<P>, AllocError>>(net.finish(alloc));
    }
}

/// What a run leaves.
pub fn logged<P>(log: &RunLog<P>, packet: &Packet, sent: &Sent, told: &Told) {
    let _: &Vec<Sent> = &log.wires;
    let _: &Vec<Sent> = &log.edges;
    let _: &Vec<Told> = &log.told;
    let _: u32 = log.dropped;
    let _: u32 = log.lost;
    let _: &Vec<P> = &log.switches;
    let _: &Network = &log.net;
    let _: u16 = packet.switch;
    let _: u16 = packet.port;
    let _: &Vec<u8> = &packet.bytes;
    let _: u32 = sent.packet;
    let _: u16 = sent.switch;
    let _: u16 = sent.port;
    let _: &Vec<u8> = &sent.frame;
    let _: u32 = told.packet;
    let _: u16 = told.switch;
    let _: &Digest = &told.digest;
}
