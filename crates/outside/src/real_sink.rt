//! The standard output, of which nothing is told.

ghost use Rattle.std.specs.Prelude.{◌≡◌, ◌≤◌, length, IsSome, IsErr};
ghost use Rattle.outside.specs.Causes.{Licenses, Counts};
ghost use Rattle.outside.specs.Files.{Told};
ghost use Rattle.outside.specs.Putting.{Takes};

use crate::transfer::write_whole;
use crate::{Sink, SinkStop};
use std::io;

/// The standard output.
///
/// It tells nothing of content. Its count is raised at each `Failed`.
#[derive(Drop)]
pub struct RealSink<'a, P: Print> {
    rt: &'a P,
    faults: u64,
}

impl<'a, P: Print> RealSink<'a, P> {
    ghost use Rattle.outside.specs.RealSink.{real_sink_state};

    /// The standard output of this runtime, with nothing counted.
    pub fn new(rt: &'a P) -> Self
        ensures faults { (real_sink_state result).faults ≡ 0 }
    {
        RealSink { rt, faults: 0 }
    }
}

impl<'a, P: Print> Sink for RealSink<'a, P> {
    ghost use Rattle.outside.specs.RealSink.{real_sink_state};

    ghost state = { real_sink_state };

    fn put(&mut self, bytes: &[u8]) -> Result<(), SinkStop>
        ensures told { Told (real_sink_state self.new).taken (λ new. IsSome (real_sink_state self.old).taken) }
        ensures content { Told (real_sink_state self.old).taken (λ old. Told (real_sink_state self.new).taken (λ new. Takes old new bytes.now (real_sink_state self.old).spare (real_sink_state self.new).spare result)) }
        ensures goes_on { IsSome (real_sink_state self.old).taken → length bytes.now ≤ (real_sink_state self.old).spare → IsSome (real_sink_state self.new).taken }
        ensures failed { Licenses (real_sink_state self.old).faults (real_sink_state self.new).faults (IsErr result) }

        // A fault is counted at each `Failed` alone.
        ensures faults { Counts (real_sink_state self.old).faults (real_sink_state self.new).faults (IsErr result) }
    {
        let result = write_whole(&mut io::writer(self.rt), bytes);
        if result.is_err() {
            self.faults = self.faults.saturating_add(1);
        }
        result
    }
}
