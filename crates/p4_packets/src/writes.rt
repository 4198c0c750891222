//! What a statement writes.

ghost use Rattle.std.specs.Prelude.{◌≡◌, ◌∷◌, [], OnOk, IfOk};
ghost use Rattle.p4_meaning.specs.Standard.{standard_root};
ghost use Rattle.p4_meaning.specs.Statements.{assigned};
ghost use Rattle.p4_packets.specs.Fields.{store_of};

use crate::fields::Fields;
use bit_values::{Bits, sound_width};
use lex_text::Name;
use p4_parts::is_assignable;
use p4_values::path_of_two;
use std::alloc::{AllocError, Global};

/// The path of a field of the standard metadata.
pub fn standard_path(alloc: Global, field: &str) -> Result<Vec<Name>, AllocError>
    ensures { IfOk result (λ v. v.items ≡ standard_root ∷ field.now ∷ []) }
{
    path_of_two(alloc, "standard_metadata", field)
}

/// A statement's write of a word to a path, cut or widened to the path's own width. Of the standard
/// metadata statements write `egress_spec` alone.
pub fn assign(alloc: Global, path: &[Name], v: Bits, s: &mut Fields) -> Result<(), AllocError>
    ensures { OnOk result (store_of s.new ≡ assigned (store_of s.old) path.now v) }
{
    if is_assignable(path) {
        let v = v.cast(sound_width(s.value(path).width()));
        s.write(alloc, path, v)
    } else {
        Ok(())
    }
}
