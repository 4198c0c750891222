//! Types, by what their names stand for where they are used.

ghost use Rattle.std.specs.Prelude.{◌≡◌};
ghost use Rattle.p4_scopes.specs.Scopes.{typed_thing};
ghost use Rattle.p4_scopes.specs.View.{stands_of};
ghost use Rattle.p4_scopes.specs.Resolving.{end_of};

use crate::kind::Kind;
use crate::stands::Stands;
use crate::thing::Thing;

/// A type, by what its name stands for where it is used.
#[derive(Clone, Copy, Debug, PartialEq, Eq)]
pub enum Resolved {
    /// The name stands for no type.
    Missing,
    /// A type with no fields, or a field of the standard metadata, which may be for reading only.
    Single(bool, Thing),
    /// A header or a struct, with the number of its declaration.
    Declared(Thing, usize),
    /// The standard metadata.
    Standard,
}

impl Resolved {
    /// What the path of the type stands for.
    pub fn stands<'s>(&self) -> Stands<'s>
        ensures { stands_of result ≡ end_of self.now }
    {
        match self {
            Resolved::Missing => Stands::Missing,
            Resolved::Single(fixed, t) => Stands::Typed(*fixed, *t),
            Resolved::Declared(h, _) => Stands::Typed(false, *h),
            Resolved::Standard => Stands::Typed(false, Thing::Standard),
        }
    }

    /// What the type is.
    pub fn thing(&self) -> Thing
        ensures { result ≡ typed_thing (end_of self.now) }
    {
        match self {
            Resolved::Missing => Thing::Scalar(Kind::Unknown),
            Resolved::Single(_, t) => *t,
            Resolved::Declared(h, _) => *h,
            Resolved::Standard => Thing::Standard,
        }
    }
}
