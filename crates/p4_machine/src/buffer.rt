//! Buffers for the frame and the digests of a passage.

ghost use Rattle.std.specs.Prelude.{◌≡◌, ◌+◌, ◌≤◌, ◌++◌, [], IfOk, length, map, vec_capacity};
ghost use Rattle.p4_tree.specs.View.{program_of};
ghost use Rattle.p4_statements.specs.Runs.{digest_of};
ghost use Rattle.p4_machine.specs.Buffers.{IsMadeFor};

use crate::needs::{Needs, needs_of};
use p4_statements::Digest;
use p4_types::TypedProgram;
use std::alloc::{AllocError, Global};
use std::marker::Model;

/// The longest frame that a switch takes, in bytes.
const LONGEST_FRAME: usize = 65_791;

/// What comes out of a passage, or of half of one: the frame that goes out, and the digests. It has room
/// for the longest frame and the most digests that its program gives.
pub struct FrameBuf {
    frame: Vec<u8>,
    digests: Vec<Digest>,
    needs: Needs,
}

impl Drop for FrameBuf {
    fn drop(self) {
        let FrameBuf {
            frame: _frame,
            digests: _digests,
            needs: _needs,
        } = self;
    }
}

impl Model for FrameBuf {
    ghost use Rattle.p4_machine.specs.Buffers.{Buffer, buffer_of, HasItsRoom};

    ghost Value = { Buffer };

    ghost view = { buffer_of };

    ghost invariant = { HasItsRoom };
}

impl FrameBuf {
    /// An empty buffer for passages of this program.
    pub fn new(alloc: Global, p: &TypedProgram) -> Result<FrameBuf, AllocError>
        ensures empty { IfOk result (λ b. (b.frame ≡ []) × (b.digests ≡ [])) }
        ensures made { IfOk result (λ b. IsMadeFor (program_of p.now) b.needs) }
    {
        let needs = needs_of(p);
        let frame = Vec::with_capacity(alloc, needs.header_bytes as usize + LONGEST_FRAME)?;
        let digests = Vec::with_capacity(alloc, needs.most_digests as usize)?;
        Ok(FrameBuf {
            frame,
            digests,
            needs,
        })
    }

    /// The frame that goes out; it is empty where the packet is dropped, and behind the entry half.
    pub fn frame(&self) -> &[u8]
        ensures { result.now ≡ self.now.frame }
    {
        &self.frame
    }

    /// The digests, in order.
    pub fn digests(&self) -> &[Digest]
        ensures { map digest_of result.now ≡ self.now.digests }
    {
        &self.digests
    }

    /// Forgets the frame and the digests.
    pub fn clear(&mut self)
        ensures frame { self.new.frame ≡ [] }
        ensures digests { self.new.digests ≡ [] }
        ensures needs { self.new.needs ≡ self.old.needs }
    {
        self.frame.clear();
        self.digests.clear();
    }

    /// This frame goes out, for which there is room. It takes no memory.
    pub fn put_frame(&mut self, frame: &[u8])
        requires { length frame.now ≤ self.old.needs.header_bytes + 65791 }
        ensures frame { self.new.frame ≡ frame.now }
        ensures digests { self.new.digests ≡ self.old.digests }
        ensures needs { self.new.needs ≡ self.old.needs }
    {
        self.frame.clear();
        let _put = self.frame.extend_from_slice(frame);
    }

    /// Digests go behind those that are there, with as many as there is room for. It takes no memory.
    pub fn add_digests(&mut self, digests: &mut Vec<Digest>)
        requires { length self.old.digests + length digests.old.items ≤ self.old.needs.most_digests }
        ensures digests { self.new.digests ≡ self.old.digests ++ map digest_of digests.old.items }
        ensures taken { digests.new.items ≡ [] }
        ensures room { vec_capacity digests.new ≡ vec_capacity digests.old }
        ensures frame { self.new.frame ≡ self.old.frame }
        ensures needs { self.new.needs ≡ self.old.needs }
    {
        let _added = self.digests.append(digests);
    }

    /// This frame goes out, whatever its length.
    pub(crate) fn take_frame(&mut self, frame: Vec<u8>)
        ensures frame { self.new.frame ≡ frame.items }
        ensures digests { self.new.digests ≡ self.old.digests }
        ensures needs { self.new.needs ≡ self.old.needs }
    {
        if frame.len() <= self.frame.capacity() {
            self.frame.clear();
            let _put = self.frame.extend_from_slice(&frame);
        } else {
            self.frame = frame;
        }
    }

    /// These digests take the place of those that are there, however many they are.
    pub(crate) fn take_digests(&mut self, mut digests: Vec<Digest>)
        ensures digests { self.new.digests ≡ map digest_of digests.items }
        ensures frame { self.new.frame ≡ self.old.frame }
        ensures needs { self.new.needs ≡ self.old.needs }
    {
        if digests.len() <= self.digests.capacity() {
            self.digests.clear();
            let _put = self.digests.append(&mut digests);
        } else {
            self.digests = digests;
        }
    }
}
