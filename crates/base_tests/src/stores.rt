//! Stores and sinks of each kind, on tables of calls that are made through the traits.

use outside::{
    MemSink, MemStore, RealSink, RealStore, Sink, SinkStop, Store, StoreStop, SureSink, SureStore,
};
use std::alloc::Global;
use std::fs;
use std::mem::forget;
use std::process::Abort;

fn name_of(stop: StoreStop) -> &'static str {
    match stop {
        StoreStop::Missing => "Missing",
        StoreStop::TooLong => "TooLong",
        StoreStop::Failed => "Failed",
        StoreStop::NoMemory => "NoMemory",
    }
}

/// What is read under a name is this, or why it is not read.
fn is_read<S: Store>(
    rt: &impl Abort,
    alloc: Global,
    store: &mut S,
    name: &str,
    limit: u64,
    wanted: &[u8],
) {
    match store.read(alloc, name, limit) {
        Ok(bytes) => {
            assert!(rt; bytes.as_slice() == wanted, "{name} at {limit}");
            forget(bytes);
        }
        Err(stop) => assert!(rt; name_of(stop).as_bytes() == wanted, "{name} at {limit}"),
    }
}

/// `new` is written under a name, or else this is why it is not.
fn is_written<S: Store>(rt: &impl Abort, alloc: Global, store: &mut S, name: &str, wanted: &str) {
    let told = match store.write(alloc, name, b"new") {
        Ok(()) => "ok",
        Err(stop) => name_of(stop),
    };
    assert!(rt; told == wanted, "{name}");
}

/// Each row is a name, and for a read a limit behind it, and the answer.
fn calls<S: Store>(rt: &impl Abort, alloc: Global, store: &mut S, table: &str) {
    for row in table.lines() {
        let (name, rest) = row.split_once(" ").expect(rt, "an answer");
        match rest.split_once(" ") {
            Some((limit, wanted)) => {
                let limit = limit.parse::<u64>().unwrap_or(0);
                is_read(rt, alloc, store, name, limit, wanted.as_bytes());
            }
            None => is_written(rt, alloc, store, name, rest),
        }
    }
}

/// Each row is a piece that is put, and the answer.
fn puts<K: Sink>(rt: &impl Abort, sink: &mut K, table: &str) {
    for row in table.lines() {
        let (piece, wanted) = row.split_once(" ").expect(rt, "an answer");
        let told = match sink.put(piece.as_bytes()) {
            Ok(()) => "ok",
            Err(SinkStop::Failed) => "Failed",
        };
        assert!(rt; told == wanted, "{row}");
    }
}

/// The calls 0, 2 and 6 fail, and a listed read is no miss.
#[test]
fn a_mem_store_fails_at_the_listed_calls(rt: HostRuntime) {
    let alloc = rt.alloc();
    let list = Vec::from_slice(alloc, &[6, 0, 2]).expect(&rt, "memory");
    let mut store = MemStore::new(alloc, list);
    store.hold(alloc, "a", b"one").expect(&rt, "memory");
    let table = "a 9 Failed\nb 9 Missing\nb 9 Failed\na 2 TooLong\na 3 one\na ok\nb Failed\nc ok";
    calls(&rt, alloc, &mut store, table);
    assert!(rt; store.file("a") == Some(b"new".as_slice()));
    assert!(rt; store.file("b").is_none());
    assert!(rt; store.file("c") == Some(b"new".as_slice()));
    forget(store);
}

#[test]
fn a_sure_store_never_fails(rt: HostRuntime) {
    let alloc = rt.alloc();
    let mut store = SureStore::new(alloc);
    store.hold(alloc, "a", b"one").expect(&rt, "memory");
    let table = "a 3 one\na 2 TooLong\nb 9 Missing\na ok\nb ok";
    calls(&rt, alloc, &mut store, table);
    assert!(rt; store.file("a") == Some(b"new".as_slice()));
    assert!(rt; store.file("b") == Some(b"new".as_slice()));
    assert!(rt; store.file("c").is_none());
    forget(store);
}

#[test]
fn a_mem_sink_takes_what_fits(rt: HostRuntime) {
    let list = Vec::from_slice(rt.alloc(), &[1]).expect(&rt, "memory");
    let mut sink = MemSink::new(rt.alloc(), 4, list).expect(&rt, "memory");
    puts(&rt, &mut sink, "abc ok\nd Failed\n ok\nef Failed");
    assert!(rt; sink.taken() == b"abce".as_slice());
    forget(sink);
}

#[test]
fn a_sure_sink_answers_ok_past_its_room(rt: HostRuntime) {
    let mut sink = SureSink::new(rt.alloc(), 4).expect(&rt, "memory");
    puts(&rt, &mut sink, "abc ok\nde ok");
    assert!(rt; sink.taken() == b"abc".as_slice());
    forget(sink);
}

/// Works in the folder that the tests run in.
#[test]
fn a_real_store_reads_what_it_wrote(rt: HostRuntime) {
    let alloc = rt.alloc();
    let mut store = RealStore::new(&rt);
    let table = "outside.test ok
absent/outside.test Failed
outside.test 3 new
outside.test 2 TooLong
outside.absent 9 Missing
. 9 Failed";
    calls(&rt, alloc, &mut store, table);
    let long = [7; 5000];
    assert!(rt; store.write(alloc, "outside.test", &long).is_ok());
    is_read(&rt, alloc, &mut store, "outside.test", 5000, &long);
    let table = "outside.test 4999 TooLong\noutside.test ok\noutside.test 9 new";
    calls(&rt, alloc, &mut store, table);
    assert!(rt; fs::remove_file(&rt, "outside.test").is_ok());
}

/// What it prints is compared by the run of the program, whose output is stored.
#[test]
fn a_real_sink_prints(rt: HostRuntime) {
    let mut sink = RealSink::new(&rt);
    puts(&rt, &mut sink, "piece ok\n ok");
    assert!(rt; sink.put(b"\n").is_ok());
}
