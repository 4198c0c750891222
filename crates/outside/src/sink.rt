//! A place for bytes, as the program meets it.

ghost use Rattle.std.specs.Prelude.{◌≤◌, length, IsSome, IsErr};
ghost use Rattle.outside.specs.Causes.{Licenses};
ghost use Rattle.outside.specs.Files.{Told};
ghost use Rattle.outside.specs.Putting.{Takes};
ghost use Rattle.outside.specs.State.{SinkState};

use crate::SinkStop;

/// A place that takes bytes in order.
///
/// A sink may stop telling its bytes, and then never tells them again.
pub trait Sink {
    /// The bytes taken so far, where the sink tells them, how many more it will tell, and its count
    /// of faults.
    ghost state: { Self → SinkState };

    /// Hands over a piece, and takes no memory.
    ///
    /// After Ok, where the sink still tells, the whole piece was taken. After `Failed` a prefix of it
    /// was. So a sink that took nothing of a piece that has bytes answers `Failed`.
    fn put(&mut self, bytes: &[u8]) -> Result<(), SinkStop>
        ensures told { Told (state self.new).taken (λ new. IsSome (state self.old).taken) }
        ensures content { Told (state self.old).taken (λ old. Told (state self.new).taken (λ new. Takes old new bytes.now (state self.old).spare (state self.new).spare result)) }
        ensures goes_on { IsSome (state self.old).taken → length bytes.now ≤ (state self.old).spare → IsSome (state self.new).taken }
        ensures failed { Licenses (state self.old).faults (state self.new).faults (IsErr result) };
}
