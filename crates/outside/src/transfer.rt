//! Reading and writing whole files by the system's calls, which may move less than was asked.

ghost use Rattle.std.specs.Prelude.{◌≡◌, ◌≤◌, ◌+◌, ℕ, List, length, take, IfOk, IfSome, OnOk, IsErrOf};
ghost use Rattle.std.specs.Io.KnownBytes.{Consumes, Appends};
ghost use Rattle.outside.specs.declared.stops.StoreStop.TheVariants.{Missing, TooLong};
ghost use Rattle.outside.specs.Transfer.{TakesAtMost, TakesMoreThan};

use crate::{SinkStop, StoreStop};
use std::alloc::Global;
use std::io::{ErrorKind, Read, Write};

/// All that a reader gives, of which not more than one byte past the limit is taken.
pub fn read_up_to<R: Read>(alloc: Global, reader: &mut R, limit: u64) -> Result<Vec<u8>, StoreStop>
    ensures within { IfOk result (λ b. length b.items ≤ limit) }
    ensures bytes { IfOk result (λ b. IfSome (R.remaining reader.old) (λ all. b.items ≡ all)) }
    ensures too_long { IsErrOf result TooLong → TakesMoreThan limit (R.remaining reader.old) (R.remaining reader.new) }
    ensures taken { TakesAtMost (limit + 1) (R.remaining reader.old) (R.remaining reader.new) }
    ensures missing { IsErrOf result Missing → ⊥ }
{
    let mut bytes = Vec::new(alloc);
    let mut buf = [0u8; 4096];
    for _ in 0..u64::MAX {
        let left = limit - bytes.len() as u64;
        let want = if left < 4095 { left as usize + 1 } else { 4096 };
        match reader.read(&mut buf[..want]) {
            Ok(0) => return Ok(bytes),
            Ok(n) => {
                bytes.extend_from_slice(&buf[..n])?;
                if bytes.len() as u64 > limit {
                    return Err(StoreStop::TooLong);
                }
            }
            Err(e) => {
                if !matches!(e.kind(), ErrorKind::Interrupted) {
                    return Err(StoreStop::Failed);
                }
            }
        }
    }
    Err(StoreStop::Failed)
}

/// Writes all the bytes, or fails after some of them.
pub fn write_whole<W: Write>(writer: &mut W, bytes: &[u8]) -> Result<(), SinkStop>
    ensures whole { OnOk result (Appends (W.contents writer.old) (W.contents writer.new) bytes.now) }
    ensures some { (n : ℕ) × (n ≤ length bytes.now) × Appends (W.contents writer.old) (W.contents writer.new) (take n bytes.now) }
{
    let mut at = 0;
    for _ in 0..u64::MAX {
        if at >= bytes.len() {
            return Ok(());
        }
        match writer.write(&bytes[at..]) {
            Ok(0) => return Err(SinkStop::Failed),
            Ok(n) => at += n,
            Err(e) => {
                if !matches!(e.kind(), ErrorKind::Interrupted) {
                    return Err(SinkStop::Failed);
                }
            }
        }
    }
    Err(SinkStop::Failed)
}
