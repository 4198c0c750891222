//! What a path stands for, and as what it may be used.

ghost use Rattle.std.specs.Prelude.{◌≡◌};
ghost use Rattle.p4_scopes.specs.Scopes.{as_held, is_missing, value_kind, typed_thing};
ghost use Rattle.p4_scopes.specs.Uses.{reads, holds_header, holds_standard, is_table, is_action, is_algorithm, is_type, is_writable, is_constant, most_in};
ghost use Rattle.p4_scopes.specs.View.{stands_of};

use crate::kind::Kind;
use crate::thing::{Access, Function, Thing};

/// What a path stands for.
#[derive(Clone, Copy)]
pub enum Stands<'s> {
    Missing,
    /// A type, or a field of one, and whether it is for reading only.
    Typed(bool, Thing),
    /// A variable, a parameter, a constant, or a field of one.
    Held(Access, Thing),
    /// A register, by what its cells hold.
    Cells(Kind),
    /// An action: what it takes, and the most digests that a call gives.
    Act(&'s [Kind], u32),
    /// A table, by the most digests that an application gives.
    Rows(u32),
    /// A state of a parser.
    State,
    Function(Function),
    /// The checksum that the architecture's functions know.
    Algorithm,
    /// A parser, a control or another name that has no use but its own.
    Other,
}

impl<'s> Stands<'s> {
    pub fn is_missing(&self) -> bool
        ensures { result ≡ is_missing (stands_of self.now) }
    {
        match self {
            Stands::Missing => true,
            _ => false,
        }
    }

    /// The kind of a value that is read or written by its path.
    pub fn value_kind(&self) -> Kind
        ensures { result ≡ value_kind (stands_of self.now) }
    {
        match self {
            Stands::Held(_, t) => t.kind(),
            _ => Kind::Unknown,
        }
    }

    /// What a type is.
    pub fn typed_thing(&self) -> Thing
        ensures { result ≡ typed_thing (stands_of self.now) }
    {
        match self {
            Stands::Typed(_, t) => *t,
            _ => Thing::Scalar(Kind::Unknown),
        }
    }

    /// What a path of a type stands for behind a value of the type.
    pub(crate) fn as_held(&self, a: Access) -> Stands<'s>
        ensures { stands_of result ≡ as_held a (stands_of self.now) }
    {
        match self {
            Stands::Typed(fixed, t) => { Stands::Held(if *fixed { Access::Fixed } else { a }, *t) }
            _ => Stands::Missing,
        }
    }

    /// Whether it is read as a value.
    pub fn reads(&self) -> bool
        ensures { result ≡ reads (stands_of self.now) }
    {
        match self {
            Stands::Missing => true,
            Stands::Held(_, t) => t.is_scalar(),
            _ => false,
        }
    }

    /// Whether it is a header of the packet.
    pub fn holds_header(&self) -> bool
        ensures { result ≡ holds_header (stands_of self.now) }
    {
        match self {
            Stands::Missing => true,
            Stands::Held(_, t) => t.is_header(),
            _ => false,
        }
    }

    /// Whether it is the standard metadata.
    pub fn holds_standard(&self) -> bool
        ensures { result ≡ holds_standard (stands_of self.now) }
    {
        match self {
            Stands::Missing => true,
            Stands::Held(_, Thing::Standard) => true,
            _ => false,
        }
    }

    pub fn is_table(&self) -> bool
        ensures { result ≡ is_table (stands_of self.now) }
    {
        match self {
            Stands::Missing => true,
            Stands::Rows(_) => true,
            _ => false,
        }
    }

    pub fn is_action(&self) -> bool
        ensures { result ≡ is_action (stands_of self.now) }
    {
        match self {
            Stands::Missing => true,
            Stands::Act(_, _) => true,
            _ => false,
        }
    }

    pub fn is_algorithm(&self) -> bool
        ensures { result ≡ is_algorithm (stands_of self.now) }
    {
        match self {
            Stands::Missing => true,
            Stands::Algorithm => true,
            _ => false,
        }
    }

    pub fn is_type(&self) -> bool
        ensures { result ≡ is_type (stands_of self.now) }
    {
        match self {
            Stands::Missing => true,
            Stands::Typed(_, _) => true,
            _ => false,
        }
    }

    /// Whether it may be assigned.
    pub fn is_writable(&self) -> bool
        ensures { result ≡ is_writable (stands_of self.now) }
    {
        match self {
            Stands::Held(a, _) => a.may_write(),
            _ => true,
        }
    }

    pub fn is_constant(&self) -> bool
        ensures { result ≡ is_constant (stands_of self.now) }
    {
        match self {
            Stands::Missing => true,
            Stands::Held(Access::Constant, _) => true,
            _ => false,
        }
    }

    /// The most digests that a call of an action gives, or the application of a table.
    pub fn most(&self) -> u32
        ensures { result ≡ most_in (stands_of self.now) }
    {
        match self {
            Stands::Act(_, m) => *m,
            Stands::Rows(m) => *m,
            _ => 0,
        }
    }
}
