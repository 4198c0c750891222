//! What statements work on.

ghost use Rattle.std.specs.Prelude.{◌≡◌};
ghost use Rattle.p4_statements.specs.Runs.{digest_of};

use crate::registers::Registers;
use arrayvec::ArrayVec;
use bit_values::Bits;
use p4_packets::Fields;

/// What a `digest` hands up: the receiver's number, and the words, nine at most. It takes no memory.
pub struct Digest {
    pub receiver: u32,
    pub values: ArrayVec<Bits, 9>,
}

impl Drop for Digest {
    fn drop(self) {
        let Digest {
            receiver: _,
            values: _values,
        } = self;
    }
}

impl Digest {
    /// An equal digest.
    pub fn copy(&self) -> Digest
        ensures { digest_of result ≡ digest_of self.now }
    {
        let mut values = ArrayVec::new();
        for value in self.values.as_slice() {
            values.push(*value);
        }
        Digest {
            receiver: self.receiver,
            values,
        }
    }
}

/// What is in sight, the cells of the registers, and the digests so far.
#[derive(Drop)]
pub struct Run {
    pub fields: Fields,
    pub registers: Registers,
    pub digests: Vec<Digest>,
}

/// How a statement ends: what follows goes on, the action or control returns, or the control exits.
#[derive(Clone, Copy, Debug, PartialEq, Eq)]
pub enum Flow {
    Go,
    Return,
    Exit,
}

/// How a test ends: whether what follows goes on, and whether the test holds.
#[derive(Clone, Copy, Debug, PartialEq, Eq)]
pub struct Tested {
    pub flow: Flow,
    pub hit: bool,
}
