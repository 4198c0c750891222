//! What values and types are, and who may write them.

ghost use Rattle.std.specs.Prelude.{◌≡◌};
ghost use Rattle.p4_scopes.specs.Scopes.{thing_kind};
ghost use Rattle.p4_scopes.specs.Uses.{is_scalar, is_header, header_bits, may_write};

use crate::kind::Kind;

/// What a value or a type is.
#[derive(Clone, Copy, Debug, PartialEq, Eq)]
pub enum Thing {
    Scalar(Kind),
    /// A header of so many bits, at most the greatest number of 32 bits.
    Header(u32),
    Struct,
    /// The standard metadata.
    Standard,
    /// What a parser reads.
    PacketIn,
    /// What a deparser writes.
    PacketOut,
}

impl Thing {
    /// What kind of a single value it is.
    pub fn kind(&self) -> Kind
        ensures { result ≡ thing_kind self.now }
    {
        match self {
            Thing::Scalar(k) => *k,
            _ => Kind::Unknown,
        }
    }

    /// Whether it is one value.
    pub fn is_scalar(&self) -> bool
        ensures { result ≡ is_scalar self.now }
    {
        match self {
            Thing::Scalar(_) => true,
            _ => false,
        }
    }

    pub fn is_header(&self) -> bool
        ensures { result ≡ is_header self.now }
    {
        match self {
            Thing::Header(_) => true,
            _ => false,
        }
    }

    /// The bits of a header; 0 where it is none.
    pub fn header_bits(&self) -> u32
        ensures { result ≡ header_bits self.now }
    {
        match self {
            Thing::Header(n) => *n,
            _ => 0,
        }
    }
}

/// Who may write a value.
#[derive(Clone, Copy, Debug, PartialEq, Eq)]
pub enum Access {
    Writable,
    /// It can be read only.
    Fixed,
    /// It is known before the program runs.
    Constant,
}

impl Access {
    /// Whether a value may be assigned.
    pub fn may_write(&self) -> bool
        ensures { result ≡ may_write self.now }
    {
        match self {
            Access::Writable => true,
            Access::Fixed | Access::Constant => false,
        }
    }
}

/// A function of the architecture's own.
#[derive(Clone, Copy, Debug, PartialEq, Eq)]
pub enum Function {
    MarkToDrop,
    Digest,
    VerifyChecksum,
    UpdateChecksum,
}
