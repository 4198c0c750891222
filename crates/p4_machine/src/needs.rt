//! What the passages of a program need.

ghost use Rattle.p4_tree.specs.View.{program_of};
ghost use Rattle.p4_machine.specs.Buffers.{IsMadeFor};

use p4_types::TypedProgram;

/// What a buffer has room for: the bytes of the headers, and the most digests of a passage.
#[derive(Clone, Copy, Drop)]
pub(crate) struct Needs {
    pub header_bytes: u32,
    pub most_digests: u32,
}

/// What passages of this program need.
pub(crate) fn needs_of(p: &TypedProgram) -> Needs
    ensures { IsMadeFor (program_of p.now) result }
{
    Needs {
        header_bytes: p.header_bytes(),
        most_digests: p.digest_bound(),
    }
}
