//! Stores and sinks.

use crate::never::never;
use job_course::Status;
use outside::{
    MemSink, MemStore, RealSink, RealStore, Sink, SinkStop, Store, StoreStop, SureSink, SureStore,
    read_up_to, write_whole,
};
use std::alloc::{AllocError, Global};
use std::io::{Read, Write};
use std::mem::forget;

/// Any store and any sink.
pub fn traits<S: Store, K: Sink>(
    alloc: Global,
    store: &mut S,
    sink: &mut K,
    name: &str,
    bytes: &[u8],
    limit: u64,
) {
    if never() {
        forget::<Result<Vec<u8>, StoreStop>>(store.read(alloc, name, limit));
        forget::<Result<(), StoreStop>>(store.write(alloc, name, bytes));
        forget::<Result<(), SinkStop>>(sink.put(bytes));
    }
}

/// Stores in memory.
pub fn stores(alloc: Global, fail: Vec<u64>, name: &str, bytes: &[u8]) {
    if never() {
        let mut mem: MemStore = MemStore::new(alloc, fail);
        forget::<Result<(), AllocError>>(mem.hold(alloc, name, bytes));
        let _: Option<&[u8]> = mem.file(name);
        let mut sure: SureStore = SureStore::new(alloc);
        forget::<Result<(), AllocError>>(sure.hold(alloc, name, bytes));
        let _: Option<&[u8]> = sure.file(name);
    }
}

/// Sinks in memory.
pub fn sinks(alloc: Global, room: u32, fail: Vec<u64>) {
    if never() {
        let mem: Result<MemSink, AllocError> = MemSink::new(alloc, room, fail);
        if let Ok(sink) = mem {
            let _: &[u8] = sink.taken();
        }
        let sure: Result<SureSink, AllocError> = SureSink::new(alloc, room);
        if let Ok(sink) = sure {
            let _: &[u8] = sink.taken();
        }
    }
}

/// The system's files and standard output.
pub fn real(rt: &HostRuntime) {
    if never() {
        let _: RealStore<'_, HostRuntime> = RealStore::new(rt);
        let _: RealSink<'_, HostRuntime> = RealSink::new(rt);
    }
}

/// Whole files and bytes, through any reader and any writer.
pub fn transfers<R: Read, W: Write>(
    alloc: Global,
    reader: &mut R,
    writer: &mut W,
    limit: u64,
    bytes: &[u8],
) {
    if never() {
        forget::<Result<Vec<u8>, StoreStop>>(read_up_to(alloc, reader, limit));
        forget::<Result<(), SinkStop>>(write_whole(writer, bytes));
    }
}

/// What stops a store.
pub fn stops(stop: StoreStop, sink: SinkStop) {
    match stop {
        StoreStop::Missing | StoreStop::TooLong | StoreStop::Failed | StoreStop::NoMemory => {}
    }
    match sink {
        SinkStop::Failed => {}
    }
}

/// The statuses, in the order of their numbers.
pub fn statuses() -> [Status; 10] {
    [
        Status::Done,
        Status::BadWords,
        Status::ReadFault,
        Status::BadProperty,
        Status::NotLinked,
        Status::BadProgram,
        Status::BadNetwork,
        Status::BadCapture,
        Status::WriteFault,
        Status::NoMemory,
    ]
}
