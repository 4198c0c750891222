//! The frame that goes out.

ghost use Rattle.std.specs.Prelude.{◌≡◌, ◌+◌, ◌≤◌, [], take, length, MatchOption};
ghost use Rattle.std.specs.Option.{option_map};
ghost use Rattle.p4_machine.specs.Buffers.{goes_out};
ghost use Rattle.p4_machine.specs.declared.pass.Passed.TheVariants as passed;

use p4_machine::{FrameBuf, Passed};
use slot_passages::Out;

/// A packet goes out by the buffer, its frame being the first bytes of these, or is dropped.
pub(crate) fn put_out(buf: &mut FrameBuf, out: Option<Out>, bytes: &[u8]) -> Passed
    requires empty { buf.old.frame ≡ [] }
    requires within { MatchOption out (Unit {0}) (λ o. o.length ≤ length bytes.now) }
    requires fits { length bytes.now ≤ buf.old.needs.header_bytes + 65791 }
    ensures out { goes_out result buf.new.frame ≡ option_map (λ o. (o.port, take o.length bytes.now)) out }
    ensures dropped { result ≡ passed.Dropped → buf.new.frame ≡ [] }
    ensures digests { buf.new.digests ≡ buf.old.digests }
    ensures needs { buf.new.needs ≡ buf.old.needs }
{
    match out {
        None => Passed::Dropped,
        Some(out) => {
            buf.put_frame(&bytes[..out.length]);
            Passed::Out { port: out.port }
        }
    }
}
