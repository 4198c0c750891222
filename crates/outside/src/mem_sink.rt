//! A sink in memory, whose puts fail where a list says so or the room is at its end.

ghost use Rattle.std.specs.Prelude.{◌≡◌, ◌≤◌, ◌<◌, ◌-◌, ◌++◌, [], length, take, vec_len, vec_capacity, IsOk, IsErr, IfOk, IsSome, Contains};
ghost use Rattle.outside.specs.Causes.{Licenses, Counts, raised};
ghost use Rattle.outside.specs.Files.{Told};
ghost use Rattle.outside.specs.Putting.{Takes};

use crate::failing::FailList;
use crate::reserved::append;
use crate::{Sink, SinkStop};
use std::alloc::{AllocError, Global};

/// Bytes in memory up to a room, with a list of the puts that are to fail.
///
/// Puts are numbered from 0. A put whose number is listed answers `Failed` and takes nothing. Of a
/// piece that doesn't fit, the prefix that does is taken, and the answer is `Failed`.
#[derive(Drop)]
pub struct MemSink {
    bytes: Vec<u8>,
    room: usize,
    fail: FailList,
    faults: u64,
    ghost fits: { vec_len bytes ≤ room },
    ghost reserved: { room ≤ vec_capacity bytes },
}

impl MemSink {
    ghost use Rattle.outside.specs.MemSink.{taken_by, room_of, mem_sink_state, failing_puts, next_put};

    /// An empty sink that takes `room` bytes in all.
    ///
    /// `fail` lists the puts that are to fail, in any order.
    pub fn new(alloc: Global, room: u32, fail: Vec<u64>) -> Result<MemSink, AllocError>
        ensures empty { IfOk result (λ s. taken_by s ≡ []) }
        ensures room { IfOk result (λ s. room_of s ≡ room) }
        ensures faults { IfOk result (λ s. (mem_sink_state s).faults ≡ 0) }
        ensures list { IfOk result (λ s. failing_puts s ≡ fail.items) }
        ensures next { IfOk result (λ s. next_put s ≡ 0) }
    {
        let bytes = Vec::with_capacity(alloc, room as usize)?;
        Ok(MemSink {
            bytes,
            room: room as usize,
            fail: FailList::new(fail),
            faults: 0,
        })
    }

    /// The bytes taken so far.
    pub fn taken(&self) -> &[u8]
        ensures { result.now ≡ taken_by self.now }
    {
        &self.bytes
    }
}

impl Sink for MemSink {
    ghost use Rattle.outside.specs.MemSink.{taken_by, room_of, mem_sink_state, failing_puts, next_put};

    ghost state = { mem_sink_state };

    fn put(&mut self, bytes: &[u8]) -> Result<(), SinkStop>
        ensures told { Told (mem_sink_state self.new).taken (λ new. IsSome (mem_sink_state self.old).taken) }
        ensures content { Told (mem_sink_state self.old).taken (λ old. Told (mem_sink_state self.new).taken (λ new. Takes old new bytes.now (mem_sink_state self.old).spare (mem_sink_state self.new).spare result)) }
        ensures goes_on { IsSome (mem_sink_state self.old).taken → length bytes.now ≤ (mem_sink_state self.old).spare → IsSome (mem_sink_state self.new).taken }
        ensures failed { Licenses (mem_sink_state self.old).faults (mem_sink_state self.new).faults (IsErr result) }

        // A listed put fails and takes nothing, and every other one takes what fits.
        ensures listed { Contains (failing_puts self.old) (next_put self.old) → IsErr result × (taken_by self.new ≡ taken_by self.old) }
        ensures fits { (Contains (failing_puts self.old) (next_put self.old) → ⊥) → length bytes.now ≤ (mem_sink_state self.old).spare → IsOk result }
        ensures over { (Contains (failing_puts self.old) (next_put self.old) → ⊥) → (mem_sink_state self.old).spare < length bytes.now
            → IsErr result × (taken_by self.new ≡ taken_by self.old ++ take (mem_sink_state self.old).spare bytes.now) }
        ensures faults { Counts (mem_sink_state self.old).faults (mem_sink_state self.new).faults (IsErr result) }
        ensures numbered { next_put self.new ≡ raised (next_put self.old) }
        ensures stays { (room_of self.new ≡ room_of self.old) × (failing_puts self.new ≡ failing_puts self.old) }
    {
        if self.fail.fails() {
            self.faults = self.faults.saturating_add(1);
            return Err(SinkStop::Failed);
        }
        let spare = self.room - self.bytes.len();
        if bytes.len() <= spare {
            append(&mut self.bytes, bytes);
            Ok(())
        } else {
            append(&mut self.bytes, &bytes[..spare]);
            self.faults = self.faults.saturating_add(1);
            Err(SinkStop::Failed)
        }
    }
}
