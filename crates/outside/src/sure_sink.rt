//! A sink in memory whose puts don't fail.

ghost use Rattle.std.specs.Prelude.{◌≡◌, ◌≤◌, ◌<◌, [], length, vec_len, vec_capacity, IsOk, IsErr, IfOk, IsSome, Some, None};
ghost use Rattle.outside.specs.Causes.{Licenses};
ghost use Rattle.outside.specs.Files.{Told};
ghost use Rattle.outside.specs.Putting.{Takes};

use crate::reserved::append;
use crate::{Sink, SinkStop};
use std::alloc::{AllocError, Global};

/// Bytes in memory up to a room. No put fails, so its faults are always 0.
///
/// A piece that doesn't fit is answered Ok, and from then on the sink doesn't tell its bytes.
#[derive(Drop)]
pub struct SureSink {
    bytes: Vec<u8>,
    room: usize,
    over: bool,
    ghost fits: { vec_len bytes ≤ room },
    ghost reserved: { room ≤ vec_capacity bytes },
}

impl SureSink {
    ghost use Rattle.outside.specs.SureSink.{surely_taken, told_by, sure_room};

    /// An empty sink that takes `room` bytes in all.
    pub fn new(alloc: Global, room: u32) -> Result<SureSink, AllocError>
        ensures empty { IfOk result (λ s. told_by s ≡ Some []) }
        ensures room { IfOk result (λ s. sure_room s ≡ room) }
    {
        let bytes = Vec::with_capacity(alloc, room as usize)?;
        Ok(SureSink {
            bytes,
            room: room as usize,
            over: false,
        })
    }

    /// The bytes that it holds: those of all pieces, while each fitted.
    pub fn taken(&self) -> &[u8]
        ensures held { result.now ≡ surely_taken self.now }
        ensures told { Told (told_by self.now) (λ bytes. result.now ≡ bytes) }
    {
        &self.bytes
    }
}

impl Sink for SureSink {
    ghost use Rattle.outside.specs.SureSink.{told_by, sure_room, sure_sink_state};

    ghost state = { sure_sink_state };

    fn put(&mut self, bytes: &[u8]) -> Result<(), SinkStop>
        ensures told { Told (sure_sink_state self.new).taken (λ new. IsSome (sure_sink_state self.old).taken) }
        ensures content { Told (sure_sink_state self.old).taken (λ old. Told (sure_sink_state self.new).taken (λ new. Takes old new bytes.now (sure_sink_state self.old).spare (sure_sink_state self.new).spare result)) }
        ensures goes_on { IsSome (sure_sink_state self.old).taken → length bytes.now ≤ (sure_sink_state self.old).spare → IsSome (sure_sink_state self.new).taken }
        ensures failed { Licenses (sure_sink_state self.old).faults (sure_sink_state self.new).faults (IsErr result) }

        // A piece that doesn't fit is answered Ok too, and ends the telling.
        ensures sure { IsOk result }
        ensures over { (sure_sink_state self.old).spare < length bytes.now → told_by self.new ≡ None }
        ensures room { sure_room self.new ≡ sure_room self.old }
    {
        if bytes.len() <= self.room - self.bytes.len() {
            append(&mut self.bytes, bytes);
        } else {
            self.over = true;
        }
        Ok(())
    }
}
