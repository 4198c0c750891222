//! Files: captures, networks, tables, schedules and the texts of a run.

use crate::never::never;
use bit_values::Bits;
use indus_tree::Decl;
use indus_types::TypedProperty;
use indus_values::ControlValue;
use lex_text::Name;
use network_file::{Event, Network, NetworkFault, read_network};
use p4_tables::{EntryFault, TableState};
use p4_types::TypedProgram;
use pcap_io::{CaptureFault, Captured, read_capture, write_capture};
use report_writer::{CellRow, Counts, ReportRow, cells_text, reports_text, summary_text};
use schedule_file::{ScheduleFault, TooMany, read_schedule, table_items};
use serde_json::Value;
use std::alloc::{AllocError, Global};
use std::mem::forget;
use table_faults::TableFault;
use table_file::{load_control, load_entries, read_contents};

/// Captures.
pub fn captures(alloc: Global, file: &[u8], list: &[Captured], one: &Captured) {
    let _: u32 = one.seconds;
    let _: u32 = one.micros;
    let _: &Vec<u8> = &one.bytes;
    if never() {
        forget::<Result<Vec<Captured>, CaptureFault>>(read_capture(alloc, file));
        forget::<Result<Vec<u8>, AllocError>>(write_capture(alloc, list));
    }
}

/// Networks.
pub fn networks(alloc: Global, v: &Value, network: &Network, switch: u16, port: u16, name: &str) {
    if never() {
        forget::<Result<Network, NetworkFault>>(read_network(alloc, v));
        let _: u16 = network.count();
        let _: &str = network.name(switch);
        let _: Option<u16> = network.number(name);
        let _: Option<(u16, u16)> = network.next(switch, port);
    }
}

/// Entries and control contents.
pub fn tables(
    alloc: Global,
    v: &Value,
    program: &TypedProgram,
    property: &TypedProperty,
    network: &Network,
    path: &str,
    decl: &Decl,
) {
    if never() {
        forget::<Result<Vec<TableState>, TableFault>>(load_entries(alloc, v, program, network));
        forget::<Result<Vec<Vec<ControlValue>>, TableFault>>(load_control(
            alloc, v, property, network,
        ));
        forget::<Result<ControlValue, TableFault>>(read_contents(alloc, path, v, decl));
    }
}

/// Schedules.
pub fn schedules(
    alloc: Global,
    v: &Value,
    packets: u32,
    property: &TypedProperty,
    network: &Network,
    entries: &[u32],
    control: &[Vec<ControlValue>],
    events: &[Event],
) {
    if never() {
        forget::<Result<Vec<Event>, ScheduleFault>>(read_schedule(
            alloc,
            v,
            packets,
            Some(property),
            network,
        ));
        forget::<Result<(), TooMany>>(table_items(property, entries, control, events));
    }
}

/// Events.
pub fn events(event: &Event, many: TooMany) {
    match event {
        Event::Enter(packet) => {
            let _: &u32 = packet;
        }
        Event::Leave(packet) => {
            let _: &u32 = packet;
        }
        Event::Set {
            switch,
            variable,
            contents,
        } => {
            let _: &u16 = switch;
            let _: &u32 = variable;
            let _: &ControlValue = contents;
        }
    }
    let _: u16 = many.switch;
}

/// The texts of a run.
pub fn texts(
    alloc: Global,
    reports: &[ReportRow<'_>],
    cells: &[CellRow<'_>],
    counts: Counts,
    report: &ReportRow<'_>,
    cell: &CellRow<'_>,
) {
    let _: u32 = report.packet;
    let _: &str = report.switch;
    let _: u32 = report.number;
    let _: &[Bits] = report.values;
    let _: &str = cell.switch;
    let _: &str = cell.register;
    let _: u32 = cell.index;
    let _: Bits = cell.value;
    let _: u32 = counts.packets;
    let _: u32 = counts.sent;
    let _: u32 = counts.dropped;
    let _: u32 = counts.rejected;
    let _: u32 = counts.lost;
    let _: u64 = counts.reports;
    if never() {
        forget::<Result<String, AllocError>>(reports_text(alloc, reports));
        forget::<Result<String, AllocError>>(cells_text(alloc, cells));
        forget::<Result<String, AllocError>>(summary_text(alloc, counts));
    }
}

/// What a capture is refused for.
pub fn capture_faults(fault: CaptureFault) {
    match fault {
        CaptureFault::NoMemory | CaptureFault::ShortHeader | CaptureFault::BadMagic => {}
        CaptureFault::BadVersion | CaptureFault::NotEthernet => {}
        CaptureFault::TornRecord { at } => {
            let _: u64 = at;
        }
        CaptureFault::TooLong { at } => {
            let _: u64 = at;
        }
    }
}

/// What a network is refused for.
pub fn network_faults(fault: &NetworkFault) {
    match fault {
        NetworkFault::NoMemory | NetworkFault::Limit => {}
        NetworkFault::Shape { path } => {
            let _: &Name = path;
        }
        NetworkFault::NameTwice { path } => {
            let _: &Name = path;
        }
        NetworkFault::NoSuchSwitch { path } => {
            let _: &Name = path;
        }
        NetworkFault::PortTwice { path } => {
            let _: &Name = path;
        }
        NetworkFault::BadPort { path } => {
            let _: &Name = path;
        }
    }
}

/// What entries or contents are refused for.
pub fn table_faults(fault: &TableFault) {
    match fault {
        TableFault::NoMemory => {}
        TableFault::Shape { path } => {
            let _: &Name = path;
        }
        TableFault::NoSuchTable { path } => {
            let _: &Name = path;
        }
        TableFault::NoSuchVariable { path } => {
            let _: &Name = path;
        }
        TableFault::Value { path } => {
            let _: &Name = path;
        }
        TableFault::KeyTwice { path } => {
            let _: &Name = path;
        }
        TableFault::NoSuchSwitch { path } => {
            let _: &Name = path;
        }
        TableFault::Entry { path, fault } => {
            let _: &Name = path;
            let _: &EntryFault = fault;
        }
    }
}

/// What a schedule is refused for.
pub fn schedule_faults(fault: &ScheduleFault) {
    match fault {
        ScheduleFault::NoMemory => {}
        ScheduleFault::Shape { at } => {
            let _: &u32 = at;
        }
        ScheduleFault::NoSuchPacket { at } => {
            let _: &u32 = at;
        }
        ScheduleFault::Queued { at } => {
            let _: &u32 = at;
        }
        ScheduleFault::Control { at, fault } => {
            let _: &u32 = at;
            let _: &TableFault = fault;
        }
    }
}
