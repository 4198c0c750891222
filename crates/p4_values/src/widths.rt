//! Widths of types.

ghost use Rattle.std.specs.Prelude.{◌≡◌};
ghost use Rattle.p4_meaning.specs.Value.{width_of};

use p4_tree::PTy;

/// The bits of a value of a type; a named type has none.
pub fn width_of(ty: &PTy) -> u8
    ensures { result ≡ width_of ty.now }
{
    match ty {
        PTy::Bit(w) => *w,
        PTy::Bool => 1,
        PTy::Named(_) => 0,
    }
}
